// What the program calls under a proof.
pub mod words;
