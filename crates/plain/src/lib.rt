// What requests and answers are made of. The plain machine, in specs/, speaks of these very types.
#![tactic(auto)]

pub mod answers;
pub mod calls;
pub mod faults;
pub mod laws;
