// Theorems about the rules. The definitions are in specs/, the proofs in proofs/; there is no code.
#![tactic(auto)]
