// Sixteen iterations of a later stage in lanes.
#![tactic(auto)]

pub mod inner;
