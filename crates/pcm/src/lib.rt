// Samples of 16 bits, two bytes each, as f32 and back.
#![tactic(auto)]

pub mod inner;
