// The end twiddles of either direction. All of it is called by other crates under a proof.
#![tactic(auto)]

pub mod inner;
