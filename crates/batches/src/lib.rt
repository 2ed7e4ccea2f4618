// The laws of calls that are stored in batches are in proofs/: no code is here.
#![tactic(auto)]
