// No code: the calculus is definitions (specs/) and theorems about them (proofs/).
#![tactic(auto)]
