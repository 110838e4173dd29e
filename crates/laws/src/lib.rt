// Laws of plain mathematics that the proofs of every crate cite, and what a byte is. There is no code here.
#![tactic(auto)]
