// The gate of an old node of dedup: gathered, normalized, and put behind the new nodes where it is none of them.
#![tactic(auto)]

pub mod list;
pub mod place;

// How many nodes the new network has so far, and how many gate inputs.
#[derive(Clone, Copy)]
pub struct Built {
    pub nodes: usize,
    pub fanin: usize,
}
