// The phrase file as definitions (specs/) and what is proved of them (proofs/); no code.
#![tactic(auto)]
