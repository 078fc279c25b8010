// network.rs, remap: a network taken over by an order of its nodes. `from` is read, `to` is written, and has the order and the
// mapping in the tables behind its network.
#![tactic(auto)]

ghost use Rattle.std.specs.Prelude.{◌≡◌, ◌≤◌, length};
ghost use Rattle.model.specs.Signal.{remap_order};
ghost use Rattle.tables.specs.Layout.{span, cell, tr_base};
ghost use Rattle.tables.specs.Building.{put_inputs, put_outputs};
ghost use Rattle.translation.specs.Tables.{outputs_by};
ghost use Rattle.remap.specs.Remapping.{inputs_by, Copying, Placing, Put, Mapping, Mapped, OutMapping, Numbering, Numbered, Orders, Remapped};

use signal::Signal;
use tables::counts::Counts;
use tables::layout::{
    count_at, first_at, high_at, input_at, kind_at, low_at, output_at, put_gate, put_input,
    put_output, put_table,
};
use tables::scratch::{ORDER, TR, number, put_word};
use translation::clear_table;

pub mod nodes;

// A signal through the mapping, and through the words behind it for a node past its 512.
// stays beside `translation::translate`, which maps such a node to zero.
pub fn translate(to: &[u32], s: u32) -> u32
    requires { span ≤ length to.now }
    ensures { result ≡ remap_order (cell to.now tr_base) s }
{
    Signal { a: s }.remap_order(&to[TR..]).a
}

fn copy_inputs(from: &[u32], to: &mut [u32], f: usize, at: usize, n: usize)
    requires { Copying from.now to.old f at n }
    ensures { to.new ≡ put_inputs to.old at (inputs_by from.now (cell to.old tr_base) f) n }
{
    for j in 0..n {
        let s = translate(to, input_at(from, f + j));
        put_input(to, at + j, s);
    }
}

// Node v of `from`, translated, as node k, its inputs from `at` on; where the next one's go.
fn remap_gate(from: &[u32], to: &mut [u32], c: Counts, v: usize, k: usize, at: usize) -> usize
    requires { Placing from.now to.old c v k at }
    ensures { Put from.now to.old to.new v k at result }
{
    let n = count_at(from, v);
    copy_inputs(from, to, first_at(from, v), at, n);
    put_gate(to, k, kind_at(from, v), at as u32, n as u32);
    put_table(to, k, low_at(from, v), high_at(from, v));
    at + n
}

// The m nodes of the order.
fn remap_nodes(from: &[u32], to: &mut [u32], c: Counts, m: usize)
    requires { Mapping from.now to.old c m }
    ensures { Mapped from.now to.old to.new m }
{
    let mut at: usize = 0;
    for k in 0..m {
        let v = number(to, ORDER, k);
        at = remap_gate(from, to, c, v, k, at);
    }
}

// The first o outputs, translated.
// stays beside `translation::remap_outputs`, as `translate` does beside its own.
fn remap_outputs(from: &[u32], to: &mut [u32], o: usize)
    requires { OutMapping from.now to.old o }
    ensures { to.new ≡ put_outputs to.old (outputs_by from.now (cell to.old tr_base)) o }
{
    for j in 0..o {
        let s = translate(to, output_at(from, j));
        put_output(to, j, s);
    }
}

// The mapping: the kth node of the order is node k, and what is not in the order zero.
fn number_nodes(to: &mut [u32], n: usize, m: usize)
    requires { Numbering to.old n m }
    ensures { Numbered to.old to.new n m }
{
    clear_table(to, TR, n);
    for k in 0..m {
        let v = number(to, ORDER, k);
        put_word(to, TR, v, Signal::from_var(k as u32).a);
    }
}

// The network of the m nodes of the order, with the mapping in its table.
pub fn remap(from: &[u32], to: &mut [u32], c: Counts, m: usize)
    requires { Orders from.now to.old c m }
    ensures { Remapped from.now to.old to.new c m }
{
    number_nodes(to, c.nodes, m);
    remap_nodes(from, to, c, m);
    remap_outputs(from, to, c.outs);
}
