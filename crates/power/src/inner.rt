// What other crates call under a proof.
pub mod check;
pub mod sum;
