// share_logic.rs, Factoring: count_signal_usage and separate_exclusive_signals, from a network in one area to the lists in another.
#![tactic(auto)]

pub mod count;
pub mod load;
