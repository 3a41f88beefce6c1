// Theorems about histories: what a whole row of calls leaves behind. The definitions are in specs/, the proofs in proofs/; there is no code.
#![tactic(auto)]
