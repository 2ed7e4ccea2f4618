// The definitions of a check in portions are in specs/.
#![tactic(auto)]
