// Finding elements of a finger tree by a probe, without a change to any slot.
#![tactic(auto)]

pub mod after;
pub mod digits;
pub mod search;
