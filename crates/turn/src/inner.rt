// What other crates call under a proof, and the parts of a lookup.
pub mod kernel;
pub mod lookup;
