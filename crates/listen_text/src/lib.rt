// The lines that the listen program prints.
#![tactic(auto)]

pub mod inner;
