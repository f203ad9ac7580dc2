// The lines of a script: read as requests, and printed of answers and refusals.
#![tactic(auto)]

pub mod columns;
pub mod fields;
pub mod hex;
pub mod printing;
pub mod reading;
