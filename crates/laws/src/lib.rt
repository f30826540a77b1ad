// Laws about the rules of crate nick that proofs of several crates cite, in proofs/. There is no code.
#![tactic(auto)]
