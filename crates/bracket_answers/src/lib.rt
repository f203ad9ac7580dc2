// What stands against a bracket of a text. Slots are only read.
#![tactic(auto)]

pub mod backward;
pub mod brackets;
pub mod forward;
pub mod spot;
