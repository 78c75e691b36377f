// What the program calls under a proof.
pub mod lines;
pub mod plot;
