// share_logic.rs, Factoring::run over the gates of a network: their lists loaded, the pairs shared, what was set aside given back, the joins.
#![tactic(auto)]

ghost use Rattle.pairs.specs.Lists.{Laid};
ghost use Rattle.pairs.specs.States.{state_of};
ghost use Rattle.model.specs.Sharing.{consume_binary_gates, all_pairs};
ghost use Rattle.uses.specs.Loading.{lists_in};
ghost use Rattle.factoring.specs.Turned.{Went};
ghost use Rattle.factoring_run.specs.Running.{Halfway, Finished, Loaded, Asked, Sharable};

use crate::consume::consume_binary_gates;
use factoring::Factoring;
use give_back::give_back;
use kinds::Family;
use tables::counts::Counts;
use uses::count::count_signal_usage;
use uses::load::separate_exclusive_signals;

mod consume;

// consume_pairs: while a pair remains.
fn share_pairs(p: Factoring, to: &mut [u32]) -> Option<usize>
    requires { Laid to.old p.gates }
    ensures { Went to.old to.new p.gates p.nodes p.room result (all_pairs (consume_binary_gates (state_of to.old p.gates p.nodes 0) p.gates)) }
{
    let k = consume_binary_gates(p, to, 0)?;
    p.consume_pairs(to, k)
}

// finalize: what was set aside given back, then the joins.
fn finalize(p: Factoring, from: &[u32], to: &mut [u32], f: Family, k: usize) -> Option<usize>
    requires { Halfway (lists_in f from.now p.nodes) from.now to.old p.gates p.nodes k p.room }
    ensures { Finished (lists_in f from.now p.nodes) to.new p.gates p.nodes p.room result }
{
    count_signal_usage(from, to, p.nodes, f);
    give_back(from, to, p.nodes, f);
    p.join_gates(to, k)
}

// Factoring::run over the lists that are loaded.
pub fn run(p: Factoring, from: &[u32], to: &mut [u32], f: Family) -> Option<usize>
    requires { Loaded (lists_in f from.now p.nodes) from.now to.old p.gates p.nodes }
    ensures { Finished (lists_in f from.now p.nodes) to.new p.gates p.nodes p.room result }
{
    let k = share_pairs(p, to)?;
    finalize(p, from, to, f, k)
}

// The lists of the pass, without what is set aside; how many they are.
pub fn load_lists(from: &[u32], to: &mut [u32], counts: Counts, f: Family) -> usize
    requires { Asked from.now to.old counts }
    ensures { Sharable f from.now to.new counts result }
{
    let n = counts.nodes;
    count_signal_usage(from, to, n, f);
    separate_exclusive_signals(from, to, n, f)
}
