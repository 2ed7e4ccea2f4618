// Translations side by side: as numbers, whether two are of one kind, and how many entries of an L2 table go on alike.
#![tactic(auto)]

pub mod codes;
pub mod same;
pub mod table;
