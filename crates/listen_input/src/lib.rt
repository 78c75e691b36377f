// What the listen program is given: the words of its call, and where its samples come from; and what it says.
#![tactic(auto)]

pub mod inner;
