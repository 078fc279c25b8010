// Lemmas only: laws of lists, numbers, Booleans and parts of words that every other crate cites.
#![tactic(auto)]
