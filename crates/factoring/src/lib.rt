// share_logic.rs, Factoring: the pairs and joins of a pass over the lists of signals in an area.
#![tactic(auto)]

ghost use Rattle.std.specs.Prelude.{◌+◌, ◌≤◌};

pub mod greedy;
pub mod join;

// The pass's gates, the nodes before it, and how many new ones there is room for.
#[derive(Clone, Copy)]
pub struct Factoring {
    pub gates: usize,
    pub nodes: usize,
    pub room: usize,
    ghost old: { gates ≤ nodes },
    ghost fits: { nodes + room ≤ 512 },
}
