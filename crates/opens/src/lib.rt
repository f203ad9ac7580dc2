// The way back, from right to left, to the open that a close is paired with: the last one that still waits.
#![tactic(auto)]

pub mod ends;
pub mod parts;
pub mod walk;
