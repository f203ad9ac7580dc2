// Pieces of a store as the elements of a text, marks beside them, and the head that holds their trees together.
#![tactic(auto)]

pub mod head;
pub mod leaves;
pub mod limits;
pub mod measuring;
pub mod piece;
pub mod rows;
