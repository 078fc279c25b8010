// dedup and canonical behind 1: 2 to 7; 13; or the image of the network without its duplicates, and the mapping.
ghost use Rattle.std.specs.Prelude.{length};
ghost use Rattle.tables.specs.Holding.{network_of};
ghost use Rattle.tables.specs.Working.{Areas, Answered2};
ghost use Rattle.dedup.specs.States.{Dedupable};
ghost use Rattle.network_passes.specs.Passes.{passed};
ghost use Rattle.network_work.specs.Works.{dedup_pass, dedup_work};
ghost use Rattle.refusals.specs.Numbers.{numbered};

use answers::Answer;
use load::load;
use tables::counts::Counts;
use write::write_mapped;

// 13, or the image of the network in `from`, its equal gates merged into `to`.
fn pass(
    from: &[u32],
    to: &mut [u32],
    c: Counts,
    canonical: bool,
    out: &mut [u8],
    map: &mut [u32],
) -> Answer
    requires { Dedupable from.now to.old c }
    ensures { Answered2 (passed (dedup_pass canonical) (network_of from.now c) (length out.old) (length map.old)) out.old map.old (numbered result) out.new map.new }
{
    let d = dedup::dedup(from, to, c, canonical);
    write_mapped(to, d, c.nodes, out, map)
}

pub fn merge(
    canonical: bool,
    image: &[u8],
    out: &mut [u8],
    map: &mut [u32],
    a: &mut [u32],
    b: &mut [u32],
) -> Answer
    requires { Areas a.old b.old }
    ensures { Answered2 (dedup_work canonical image.now (length out.old) (length map.old)) out.old map.old (numbered result) out.new map.new }
{
    let c = load::<true>(image, a)?;
    pass(a, b, c, canonical, out, map)
}
