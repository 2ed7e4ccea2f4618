// The lines on runs of the bench image's bytes, and on the write that clears the autoclear field, are in proofs/: no code is here.
#![tactic(auto)]
