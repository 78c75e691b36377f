// The first number of a slice that is not finite, or larger than a bound in magnitude.
#![tactic(auto)]

pub mod inner;
