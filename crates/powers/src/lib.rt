// Powers in remainders.
#![tactic(auto)]

pub mod inner;
