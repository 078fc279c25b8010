// network.rs, topo_sort: `from` is read, `to` is written, and has the order, the mapping, counts, marks and the stack in the tables
// behind its network.
#![tactic(auto)]

ghost use Rattle.topo_sort.specs.Sorts.{Sortable, Ordering, Sorted};

use crate::order::put_flip_flops;
use count_deps::count_deps;
use refusals::Refusal;
use remap::remap;
use stack_search::visit_all;
use stack_start::start;
use tables::counts::Counts;

pub mod order;

// The order: flip-flops first as they were, then the gates, the last visited first. There is none where there is a combinational loop.
fn topo_order(from: &[u32], to: &mut [u32], c: Counts) -> Result<(), Refusal>
    requires { Sortable from.now to.old c }
    ensures { Ordering from.now to.new c result }
{
    count_deps(from, to, c);
    let sp = start(from, to, c);
    let pos = visit_all(from, to, c, sp, c.nodes);
    let end = put_flip_flops(from, to, c, pos);
    if 0 < end {
        return Err(Refusal::Looped);
    }
    Ok(())
}

// The sorted network, with the mapping in its table; or a combinational loop.
pub fn topo_sort(from: &[u32], to: &mut [u32], c: Counts) -> Result<(), Refusal>
    requires { Sortable from.now to.old c }
    ensures { Sorted from.now to.new c result }
{
    topo_order(from, to, c)?;
    remap(from, to, c, c.nodes);
    Ok(())
}
