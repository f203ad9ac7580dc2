// A part of the text taken out of its tree.
#![tactic(auto)]

pub mod cutting;
pub mod deleting;
pub mod ends;
pub mod spots;
