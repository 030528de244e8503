// Laws only (proofs/): the promise of every public function leaves one outcome.
#![tactic(auto)]
