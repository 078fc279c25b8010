// Statements only: the page of promises stands in proofs/.
#![tactic(auto)]
