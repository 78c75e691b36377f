// Numbers of two and of four bytes, the lowest first.
#![tactic(auto)]

pub mod inner;
