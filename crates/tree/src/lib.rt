// The finger tree in lent slots: pushing and popping at either side, for any row and any lawful measure.
#![tactic(auto)]

pub mod build;
pub mod ends;
