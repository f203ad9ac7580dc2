// Questions on the tokens of a text, by its head. Slots are only read.
#![tactic(auto)]

pub mod edges;
pub mod tokens;
pub mod words;
