// The fields of a recording's mark and of its chunks.
#![tactic(auto)]

pub mod inner;
