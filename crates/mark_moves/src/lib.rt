// The marks' tree under edits of the text, and one mark more.
#![tactic(auto)]

pub mod counting;
pub mod growing;
pub mod parting;
pub mod putting;
pub mod shrinking;
