// What other crates call under a proof.
pub mod levels;
mod parts;
