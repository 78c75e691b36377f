// The half list of a list of radices.
#![tactic(auto)]

pub mod inner;
