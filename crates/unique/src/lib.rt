// Laws only (proofs/): the exact solution of a card is unique.
#![tactic(auto)]
