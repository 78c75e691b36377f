// What other crates call under a proof.
pub mod fields;
pub mod view;
