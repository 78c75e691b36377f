// The proved cases as one table, and wrong programs that the promises shut out: definitions and theorems.
#![tactic(auto)]
