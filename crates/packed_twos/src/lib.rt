// Figures of two bytes: their low bytes, and numbers of any width against them one by one.
#![tactic(auto)]

pub mod each;
pub mod lows;
