// share_logic.rs, factor_gates up to the sort: one pass over a network in an area, and the grown network in the other.
#![tactic(auto)]

pub mod pass;
