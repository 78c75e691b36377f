// From the bytes that a program reads to a list of radices.
#![tactic(auto)]

pub mod inner;
