// Outputs of iterations in lanes on their way to their cells.
#![tactic(auto)]

pub mod inner;
