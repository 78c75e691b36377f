// The house table of cosines and sines, an entry of it, and the f32 nearest to one of its numbers.
#![tactic(auto)]

pub mod inner;
