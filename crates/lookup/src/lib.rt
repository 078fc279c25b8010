// The new nodes of dedup by a hash: chains of those in one bucket, and the first node whose gate is the one sought.
#![tactic(auto)]

pub mod chain;
pub mod find;
