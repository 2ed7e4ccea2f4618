// The lines on the image with two snapshots and one thing wrong are in proofs/: no code is here.
#![tactic(auto)]
