// What floats do by the fractions that they equal: laws, and no code.
#![tactic(auto)]
