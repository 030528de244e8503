// A knot's equations over any numbers (specs/), and laws (proofs/): in whole numbers they are document 01's equations.
#![tactic(auto)]
