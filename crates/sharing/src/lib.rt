// The public entries of share_logic.rs: each promises its answer and every lent word afterwards, for every input.
#![tactic(auto)]

pub mod factor;
pub mod flattening;
pub mod share;
mod work;
