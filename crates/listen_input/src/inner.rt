// What the program calls under a proof.
pub mod options;
pub mod source;
pub mod told;
