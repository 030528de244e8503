// Laws only (specs/ and proofs/): the exact solution of a card with given slopes, and how near it is.
#![tactic(auto)]
