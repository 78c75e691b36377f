// What other crates call under a proof, and the parts of it.
pub mod entries;
pub mod house;
pub mod rounding;
