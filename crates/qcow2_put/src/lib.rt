// Lists of units stored under an allowance: new clusters and their entries.
#![tactic(auto)]

pub mod linking;
