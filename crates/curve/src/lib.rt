// Document 01 as definitions (specs/), and what is true of them (proofs/). The code that meets them is in the crates above.
#![tactic(auto)]
