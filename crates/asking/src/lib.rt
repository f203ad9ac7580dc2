// What questions on a text share: the row that a probe finds, and the value of a part.
#![tactic(auto)]

pub mod finding;
pub mod parts;
