// Taking a finger tree apart at the element where a probe turns yes.
#![tactic(auto)]

pub mod descent;
pub mod halves;
