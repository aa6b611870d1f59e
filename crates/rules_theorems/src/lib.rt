#![tactic(auto)]

// Theorems over the rules: what check has seen to, demand 3, what a run changes, and the faults of a program. All of it is in proofs/.
