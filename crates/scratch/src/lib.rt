// The parts of a scratch, and the result of the inverse on its way to them.
#![tactic(auto)]

pub mod inner;
