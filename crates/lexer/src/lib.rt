// Reading tokens: one byte at a time, and as a measure.
#![tactic(auto)]

pub mod kinds;
pub mod probes;
pub mod reading;
pub mod states;
pub mod summing;
pub mod tokens;
