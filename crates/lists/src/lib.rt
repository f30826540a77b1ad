// Lists and tests as numbers, for contracts and proofs: specs/ has the definitions and proofs/ the laws. There is no code.
#![tactic(auto)]
