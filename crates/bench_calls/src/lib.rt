// The lines on calls after the bench image's write are in proofs/: no code is here.
#![tactic(auto)]
