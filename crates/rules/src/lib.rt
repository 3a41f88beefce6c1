// The rules: what document 01 says, as definitions over a State (specs/), and the laws about them (proofs/). There is no code.
#![tactic(auto)]
