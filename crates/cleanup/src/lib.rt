// network.rs, cleanup: what outputs reach, through flip-flops, in old order. `from` is read, `to` is written, and has the order, the
// mapping, marks and the stack in the tables behind its network.
#![tactic(auto)]

ghost use Rattle.std.specs.Prelude.{ℕ, [], ◌∷◌, ◌<◌};
ghost use Rattle.laws.specs.Lists.{tab};
ghost use Rattle.model.specs.Network.{vars};
ghost use Rattle.tables.specs.Layout.{output_at};
ghost use Rattle.remap.specs.Tables.{ins_from};
ghost use Rattle.cleanup.specs.Marking.{CanPush, Pushed, PushAll, Tells, PushIns, PushOuts, Walking, Walked, Cleanable, Cleaned};
ghost use Rattle.keep_marked.specs.Orders.{Marked};

use keep_marked::keep_marked;
use remap::nodes::{is_node, node_of};
use remap::remap;
use tables::counts::Counts;
use tables::layout::{count_at, first_at, input_at, output_at};
use tables::scratch::{MARK, STACK, number, put_word, word};
use translation::clear_table;

// The node that s names is put on the stack.
#[tactic(auto, using(crate::proofs::Pushes::pushes))]
fn push_signal(to: &mut [u32], s: u32, sp: usize) -> usize
    requires { CanPush to.old s sp }
    ensures { Pushed to.old to.new (vars (s ∷ [])) sp result 1 }
{
    if !is_node(s) {
        return sp;
    }
    let d = node_of(s);
    put_word(to, STACK, sp, d as u32);
    sp + 1
}

// The nodes that n signals name are put on the stack, the last first, so that the first is on top.
fn push_all<F: Fn(usize) -> u32>(to: &mut [u32], n: usize, sp: usize, signal: F) -> usize
    requires { PushAll (F.pre signal) (F.post signal) to.old n sp }
    ensures { (g : ℕ → ℕ) → Tells (F.post signal) g n → Pushed to.old to.new (vars (tab g n)) sp result n }
{
    let mut top: usize = sp;
    for j in (0..n).rev() {
        top = push_signal(to, signal(j), top);
    }
    top
}

fn push_inputs(from: &[u32], to: &mut [u32], f: usize, n: usize, sp: usize) -> usize
    requires { PushIns from.now to.old f n sp }
    ensures { Pushed to.old to.new (vars (ins_from from.now f n)) sp result n }
{
    push_all(to, n, sp, |j| input_at(from, f + j))
}

fn push_outputs(from: &[u32], to: &mut [u32], o: usize) -> usize
    requires { PushOuts from.now to.old o }
    ensures { Pushed to.old to.new (vars (tab (output_at from.now) o)) 0 result o }
{
    push_all(to, o, 0, |j| output_at(from, j))
}

// The node on top is taken off, and marked if it was not.
fn mark(from: &[u32], to: &mut [u32], c: Counts, sp: usize) -> usize
    requires { Walking from.now to.old c sp × (0 < sp) }
    ensures { Walked from.now to.old to.new c sp result }
{
    let top = sp - 1;
    let v = number(to, STACK, top);
    if 0 < word(to, MARK, v) {
        return top;
    }
    put_word(to, MARK, v, 1);
    push_inputs(from, to, first_at(from, v), count_at(from, v), top)
}

fn mark_all(from: &[u32], to: &mut [u32], c: Counts)
    requires { Cleanable from.now to.old c }
    ensures { Marked from.now to.new c }
{
    clear_table(to, MARK, c.nodes);
    let mut sp = push_outputs(from, to, c.outs);
    while 0 < sp {
        sp = mark(from, to, c, sp);
    }
}

// The network of what outputs reach, with the mapping in its table; its counts.
pub fn cleanup(from: &[u32], to: &mut [u32], c: Counts) -> Counts
    requires { Cleanable from.now to.old c }
    ensures { Cleaned from.now to.new c result }
{
    mark_all(from, to, c);
    let m = keep_marked(from, to, c);
    remap(from, to, c, m);
    Counts {
        inputs: c.inputs,
        nodes: m,
        outs: c.outs,
    }
}
