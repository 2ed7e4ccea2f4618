// The lines on the bench image's write and its power cuts are in proofs/: no code is here.
#![tactic(auto)]
