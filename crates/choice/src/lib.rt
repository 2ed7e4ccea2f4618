// Choice by a test and searches over numbers, for the definitions of the crates above. The definitions are in specs/; no code is here.
#![tactic(auto)]
