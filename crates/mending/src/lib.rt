// Theorems only: what mending leaves can be undone, exactly the holes change, and behind its own checks the fit has nothing left to refuse but 8, 9 and 10.
#![tactic(auto)]
