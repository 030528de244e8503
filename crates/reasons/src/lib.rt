// Laws only (specs/ and proofs/): what an explanation says of a reading, and of a refusal with 10.
#![tactic(auto)]
