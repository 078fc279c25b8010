// share_logic.rs, flatten_nary: every And and Xor merged with what it names, then cleanup, then canonical; or 10.
#![tactic(auto)]

ghost use Rattle.model.specs.Network.{canonical, cleanup};
ghost use Rattle.model.specs.Sharing.{flatten_nary};
ghost use Rattle.tables.specs.Holding.{network_of};
ghost use Rattle.stages.specs.Stages.{Workable, Left, Staged, flat_refusal};

use dedup::dedup;
use flatten::flatten_gates;
use refusals::Refusal;
use tables::counts::Counts;

// cleanup, then canonical, of the network in `to`: back into `to`.
fn clean(from: &mut [u32], to: &mut [u32], c: Counts) -> Counts
    requires { Workable to.old from.old c }
    ensures { Left (canonical (cleanup (network_of to.old c))) to.new result }
{
    let left = cleanup::cleanup(to, from, c);
    dedup(from, to, left, true)
}

// flatten_nary: the network in `from` into `to`, or 10.
pub fn flatten_nary(
    from: &mut [u32],
    to: &mut [u32],
    c: Counts,
    limit: u32,
) -> Result<Counts, Refusal>
    requires { Workable from.old to.old c }
    ensures { Staged (flat_refusal (network_of from.old c) limit) (flatten_nary (network_of from.old c) limit) to.new result }
{
    flatten_gates(from, to, c, limit)?;
    Ok(clean(from, to, c))
}
