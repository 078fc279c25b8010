// The pass with its two refusals, over Factoring::run.
ghost use Rattle.std.specs.Prelude.{◌≤◌};
ghost use Rattle.pairs.specs.Lists.{lists_of};
ghost use Rattle.model.specs.Sharing.{places_of};
ghost use Rattle.tables.specs.Holding.{network_of};
ghost use Rattle.factoring_run.specs.Running.{Asked, Sharable};
ghost use Rattle.factor_gates.specs.Passing.{Passed};

use factoring::Factoring;
use factoring_run::{load_lists, run};
use growth::grow::grow;
use kinds::Family;
use refusals::Refusal;
use room::room_for;
use tables::counts::Counts;
use uses::load::pair_places;

// The lists run, and the grown network where there is room for it: else 12.
fn grow_shared(
    from: &[u32],
    to: &mut [u32],
    counts: Counts,
    f: Family,
    g: usize,
) -> Result<Counts, Refusal>
    requires { Sharable f from.now to.old counts g × (places_of (lists_of to.old g) ≤ 4096) }
    ensures { Passed f (network_of from.now counts) to.new result }
{
    let p = Factoring {
        gates: g,
        nodes: counts.nodes,
        room: room_for(from, counts.nodes, f),
    };
    let Some(k) = run(p, from, to, f) else {
        return Err(Refusal::Grown);
    };
    Ok(grow(from, to, counts, f, k))
}

// One pass over the network in `from`: 11 and 12 exactly where its definition passes the limits, else the grown network in `to`.
pub fn factor_pass(
    from: &[u32],
    to: &mut [u32],
    counts: Counts,
    f: Family,
) -> Result<Counts, Refusal>
    requires { Asked from.now to.old counts }
    ensures { Passed f (network_of from.now counts) to.new result }
{
    let g = load_lists(from, to, counts, f);
    if 4096 < pair_places(to, g) {
        return Err(Refusal::Pairs);
    }
    grow_shared(from, to, counts, f, g)
}
