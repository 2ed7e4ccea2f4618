// Guest bytes that are read piece by piece, as definitions and laws: there is no code here.
#![tactic(auto)]
