// network.rs, dedup: equal gates merged, with each gate normalized first or looked up as it is.
#![tactic(auto)]

ghost use Rattle.dedup.specs.States.{Dedupable, Deduped};

use crate::ends::remap_cells;
use crate::sweep::{number_nodes, sweep};
use lookup::chain::empty_chains;
use placing::Built;
use placing::list::Sweep;
use tables::counts::Counts;
use translation::remap_outputs;

pub mod ends;
pub mod sweep;

// The network in `from`, without its duplicates, into `to`, and the mapping into the table of words there.
pub fn dedup(from: &[u32], to: &mut [u32], c: Counts, canonical: bool) -> Counts
    requires { Dedupable from.now to.old c }
    ensures { Deduped from.now to.new c canonical result }
{
    empty_chains(to);
    number_nodes(to, c.nodes);
    let none = Built { nodes: 0, fanin: 0 };
    let cells = sweep(from, to, c, none, Sweep::FlipFlops, canonical);
    let all = sweep(from, to, c, cells, Sweep::Gates, canonical);
    remap_cells(to, cells.fanin);
    remap_outputs(from, to, c.outs);
    Counts {
        inputs: c.inputs,
        nodes: all.nodes,
        outs: c.outs,
    }
}
