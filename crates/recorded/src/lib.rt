// Recorded answers of the Rust: their lines, lists, numbers and words, and which answers on half lists and places differ.
#![tactic(auto)]

pub mod inner;
