// The bytes of one piece, read up to the one at which a goal is reached; where the tokens of a text begin.
#![tactic(auto)]

pub mod scan;
