// What is asked before an edit of a text and where its offsets fall; the text's tree taken apart, a piece or the clip put into it.
#![tactic(auto)]

pub mod doors;
pub mod edges;
pub mod inserting;
pub mod parting;
pub mod pasting;
