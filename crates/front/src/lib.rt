// Definitions and laws only: the list of a function's first values, and a list that a loop fills from its front.
#![tactic(auto)]
