// Questions on a text, by its head: lines, marks, ranges and the whole. Slots are only read.
#![tactic(auto)]

pub mod feeds;
pub mod lines;
pub mod marks;
pub mod range;
pub mod whole;
