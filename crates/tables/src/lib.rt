// Two levels of tables, as definitions and laws: there is no code here.
#![tactic(auto)]
