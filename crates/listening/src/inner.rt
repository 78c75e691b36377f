// What the program calls under a proof.
pub mod block;
pub mod lengths;
pub mod window;
