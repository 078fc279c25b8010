// share_logic.rs, factor_nary: one pass over the Ands, one over the Xors, each grown, sorted and made canonical; or 11 or 12.
#![tactic(auto)]

ghost use Rattle.model.specs.Network.{canonical, topo_sort};
ghost use Rattle.model.specs.Sharing.{factor_gates, factor_nary, factor_refusal, pass_refusal};
ghost use Rattle.tables.specs.Holding.{network_of};
ghost use Rattle.stages.specs.Stages.{Workable, Orderable, Staged};

use dedup::dedup;
use factor_gates::pass::factor_pass;
use kinds::Family;
use refusals::Refusal;
use tables::counts::Counts;
use topo_sort::topo_sort;

// sort, then canonical, of the grown network in `to`, which has no loop: back into `to`.
fn order(from: &mut [u32], to: &mut [u32], c: Counts) -> Result<Counts, Refusal>
    requires { Orderable to.old from.old c }
    ensures { Staged 0 (canonical (topo_sort (network_of to.old c))) to.new result }
{
    topo_sort(to, from, c)?;
    Ok(dedup(from, to, c, true))
}

// One pass of factor_nary: the network in `from` into `to`, or 11 or 12.
fn factor_gates(from: &mut [u32], to: &mut [u32], c: Counts, f: Family) -> Result<Counts, Refusal>
    requires { Workable from.old to.old c }
    ensures { Staged (pass_refusal f (network_of from.old c)) (factor_gates f (network_of from.old c)) to.new result }
{
    let grown = factor_pass(from, to, c, f)?;
    order(from, to, grown)
}

// factor_nary: the And pass, then the Xor pass; the network in `from` back into `from`, or 11 or 12.
pub fn factor_nary(from: &mut [u32], to: &mut [u32], c: Counts) -> Result<Counts, Refusal>
    requires { Workable from.old to.old c }
    ensures { Staged (factor_refusal (network_of from.old c)) (factor_nary (network_of from.old c)) from.new result }
{
    let shared = factor_gates(from, to, c, Family::And)?;
    factor_gates(to, from, shared, Family::Xor)
}
