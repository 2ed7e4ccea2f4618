// What a write or discard is to store, found over an image that can't be changed.
#![tactic(auto)]

pub mod finding;
pub mod releasing;
