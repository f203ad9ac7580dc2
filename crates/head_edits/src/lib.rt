// Every edit of a text, on its head: what is asked first, then the text's slice, then the marks'.
#![tactic(auto)]

mod closing;
pub mod cutting;
pub mod deleting;
pub mod discarding;
pub mod inserting;
pub mod marking;
pub mod pasting;
