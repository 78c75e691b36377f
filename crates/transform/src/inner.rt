// What other crates call under a proof.
pub mod directions;
pub mod stages;
