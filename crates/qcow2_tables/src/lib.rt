// The tables that the header names: where they stand, and the entries of the refcount table.
#![tactic(auto)]

pub mod entries;
pub mod places;
