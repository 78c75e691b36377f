// The twiddles of the stages, packed for a width. All of it is called by other crates under a proof.
#![tactic(auto)]

pub mod inner;
