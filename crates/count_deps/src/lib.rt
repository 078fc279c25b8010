// How often each node is named by combinational gates.
#![tactic(auto)]

ghost use Rattle.std.specs.Prelude.{◌≡◌};
ghost use Rattle.count_deps.specs.Counting.{count_one, count_ins, count_gate, CanCount, Counting, GateTurn, Counted};
ghost use Rattle.count_deps.specs.Counting.{Sortable};

use kinds::is_flip_flop_code;
use remap::nodes::{is_node, node_of};
use tables::counts::Counts;
use tables::layout::{count_at, first_at, input_at, kind_at};
use tables::scratch::{COUNT, put_word, word};
use translation::clear_table;

// The node that signal s names is counted.
#[tactic(auto, using(crate::proofs::Countings::ones))]
fn count_one(to: &mut [u32], s: u32)
    requires { CanCount to.old s }
    ensures { to.new ≡ count_one to.old s }
{
    if !is_node(s) {
        return;
    }
    let d = node_of(s);
    let n = word(to, COUNT, d);
    put_word(to, COUNT, d, n + 1);
}

#[tactic(auto, using(crate::proofs::Countings::inputs))]
fn count_inputs(from: &[u32], to: &mut [u32], f: usize, n: usize)
    requires { Counting from.now to.old f n }
    ensures { to.new ≡ count_ins from.now f to.old n }
{
    for j in 0..n {
        count_one(to, input_at(from, f + j));
    }
}

#[tactic(auto, using(crate::proofs::Countings::gate))]
fn count_gate(from: &[u32], to: &mut [u32], c: Counts, v: usize)
    requires { GateTurn from.now to.old c v }
    ensures { to.new ≡ count_gate from.now to.old v }
{
    if is_flip_flop_code(kind_at(from, v)) {
        return;
    }
    count_inputs(from, to, first_at(from, v), count_at(from, v));
}

// How often each node is named by combinational gates.
#[tactic(auto, using(crate::proofs::Countings::gates))]
pub fn count_deps(from: &[u32], to: &mut [u32], c: Counts)
    requires { Sortable from.now to.old c }
    ensures { Counted from.now to.new c }
{
    clear_table(to, COUNT, 512);
    for v in 0..c.nodes {
        count_gate(from, to, c, v);
    }
}
