// sort and cleanup of a network in one area, through the other: 8 and 13, or the image of what is made, with the mapping.
#![tactic(auto)]

ghost use Rattle.std.specs.Prelude.{length};
ghost use Rattle.tables.specs.Holding.{network_of};
ghost use Rattle.tables.specs.Working.{Answered2};
ghost use Rattle.network_passes.specs.Passes.{Passable, passed, cleanup_pass, sort_pass};
ghost use Rattle.refusals.specs.Numbers.{numbered};

use answers::Answer;
use tables::counts::Counts;
use topo_sort::topo_sort;
use write::write_mapped;

// 13, or the image of the network in `from`, cleaned up into `to`.
pub fn cleanup_pass(
    from: &[u32],
    to: &mut [u32],
    c: Counts,
    out: &mut [u8],
    map: &mut [u32],
) -> Answer
    requires { Passable from.now to.old c }
    ensures { Answered2 (passed cleanup_pass (network_of from.now c) (length out.old) (length map.old)) out.old map.old (numbered result) out.new map.new }
{
    let d = cleanup::cleanup(from, to, c);
    write_mapped(to, d, c.nodes, out, map)
}

// 8, 13, or the image of the network in `from`, sorted into `to`.
pub fn sort_pass(from: &[u32], to: &mut [u32], c: Counts, out: &mut [u8], map: &mut [u32]) -> Answer
    requires { Passable from.now to.old c }
    ensures { Answered2 (passed sort_pass (network_of from.now c) (length out.old) (length map.old)) out.old map.old (numbered result) out.new map.new }
{
    topo_sort(from, to, c)?;
    write_mapped(to, c, c.nodes, out, map)
}
