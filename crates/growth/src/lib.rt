// The network that a factoring pass grows.
#![tactic(auto)]

pub mod grow;
