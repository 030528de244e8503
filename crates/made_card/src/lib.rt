// Laws only (specs/ and proofs/): the card that a sheet's text is answered with.
#![tactic(auto)]
