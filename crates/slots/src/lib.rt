// Where finger trees lie: records in a lent slice of slots, the chain of free slots, and what trees in them mean.
#![tactic(auto)]

pub mod arena;
pub mod digits;
pub mod reading;
pub mod records;
pub mod theorems;
pub mod values;
