// What becomes of a pair of cells and of the ends of a row, in either direction.
#![tactic(auto)]

pub mod inner;
