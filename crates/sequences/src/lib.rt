// What many crates say of lists: definitions and laws, and no code.
#![tactic(auto)]
