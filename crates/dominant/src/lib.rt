// Laws only (proofs/): equations whose middle number outweighs its neighbours, bounded and solved.
#![tactic(auto)]
