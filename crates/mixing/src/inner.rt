// What other crates call under a proof, and the parts of it.
pub mod forward;
pub mod inverse;
mod pairs;
pub mod steps;
