// Definitions and laws of a search for the lowest shared cluster, window by window, are in specs/ and proofs/.
#![tactic(auto)]
