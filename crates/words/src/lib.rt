// Lists of words as definitions (specs/) and what is proved of them (proofs/): places in a list, and what lent parts leave; no code.
#![tactic(auto)]
