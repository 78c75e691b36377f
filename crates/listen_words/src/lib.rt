// The numbers among the words that the listen program is given.
#![tactic(auto)]

pub mod inner;
