// Theorems only: a book's bytes and its rooms are each other's inverse; a card that is put in is found, and every other room is as it was.
#![tactic(auto)]
