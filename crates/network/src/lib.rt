// The public entries of network.rs: each promises its answer and every lent word afterwards, for every input.
#![tactic(auto)]

pub mod canonical;
pub mod cleaning;
pub mod deduplicate;
pub mod sort;
