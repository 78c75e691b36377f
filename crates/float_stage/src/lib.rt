// The work of a float stage.
#![tactic(auto)]

pub mod inner;
