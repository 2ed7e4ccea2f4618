// The starred lines are joined in proofs/: no code is here.
#![tactic(auto)]
