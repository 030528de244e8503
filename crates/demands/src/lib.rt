// Laws only (specs/ and proofs/): demands 2 and 3, said of what the code answers.
#![tactic(auto)]
