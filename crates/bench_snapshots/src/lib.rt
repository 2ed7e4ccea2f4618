// The lines on the image with two snapshots are in proofs/: no code is here.
#![tactic(auto)]
