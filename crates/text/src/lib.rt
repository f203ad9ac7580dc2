// Texts over lent slots and a store. Only opening makes one, none can be copied, and a text that is held, with something
// cut out of it, ends only by a paste or a discard. Of each slice that is lent only the first 8,316 slots are watched.
#![tactic(auto)]

use pieces::head::Head;
use plain::faults::TextFault;

pub mod view;
mod watching;
mod while_held;
mod while_whole;

#[derive(Drop)]
pub struct Whole {
    head: Head,
}

pub struct Held {
    head: Head,
}

// A refusal hands the text back.
pub struct Refused<T> {
    pub text: T,
    pub fault: TextFault,
}
