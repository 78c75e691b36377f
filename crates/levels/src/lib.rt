// Powers in decibels, in whole numbers: the step of a power, its level, and the least power of a level.
#![tactic(auto)]

pub mod inner;
