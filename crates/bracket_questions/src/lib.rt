// Laws of the opens that wait for a close while a text is read. The crate has no function: specs/ and proofs/ are all of it.
#![tactic(auto)]
