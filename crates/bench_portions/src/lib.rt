// The table of the check in portions, in definitions and proofs: there is no code here.
#![tactic(auto)]
