// The schedule of the stages: definitions and laws that floats and remainders share, and no code.
#![tactic(auto)]
