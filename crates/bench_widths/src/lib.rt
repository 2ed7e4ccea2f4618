// The lines on the bench image with counts of other widths are in proofs/: no code is here.
#![tactic(auto)]
