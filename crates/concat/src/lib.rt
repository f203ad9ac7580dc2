// Trees one after another: rows of nodes made of the slots where two trees meet, and concatenation.
#![tactic(auto)]

pub mod bundles;
pub mod joins;
