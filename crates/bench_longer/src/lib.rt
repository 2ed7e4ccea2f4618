// The table of an image that is made longer, in definitions and proofs: there is no code here.
#![tactic(auto)]
