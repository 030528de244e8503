// Laws only (specs/ and proofs/): the exact solution between the ends of a fit.
#![tactic(auto)]
