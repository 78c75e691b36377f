// What other crates call under a proof.
pub mod rows;
