// What other crates call under a proof, and the parts of it.
pub mod storing;
