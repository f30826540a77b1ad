// The theorems about the rules of crate nick: specs/ holds the statements, proofs/ their proofs. There is no code.
#![tactic(auto)]
