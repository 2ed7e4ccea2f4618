// The table of batches, in definitions and proofs: there is no code here.
#![tactic(auto)]
