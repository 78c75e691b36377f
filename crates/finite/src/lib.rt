// How large floats can grow, and where they are exact: definitions and laws.
#![tactic(auto)]
