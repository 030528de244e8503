// What a book holds after puts and removals, one after the other: theorems alone, above the functions that they are of. Document 02, order 11.
#![tactic(auto)]
