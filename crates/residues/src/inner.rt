// What other crates call under a proof, and the parts of a stage.
pub mod drive;
pub mod stage;
