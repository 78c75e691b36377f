// Rows of bytes read from an input.
#![tactic(auto)]

pub mod inner;
