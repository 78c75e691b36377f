// The walk over the chunks of a recording.
#![tactic(auto)]

pub mod inner;
