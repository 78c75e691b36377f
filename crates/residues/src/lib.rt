// The stages in remainders modulo m on whatever is rightly lent, where w turns by one of h parts of a circle.
#![tactic(auto)]

pub mod inner;
