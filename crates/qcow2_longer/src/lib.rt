// A longer image, in definitions and laws: there is no code here.
#![tactic(auto)]
