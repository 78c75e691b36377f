// What other crates call under a proof.
pub mod places;
pub mod plans;
pub mod text;
pub mod words;
