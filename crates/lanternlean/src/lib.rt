// The public entries that read: each promises its answer and every lent word afterwards, for every input.
#![tactic(auto)]

pub mod read;
pub mod record;
