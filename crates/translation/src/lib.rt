// The table of words for each node in which a pass keeps what the node becomes: cleared, and signals put through it.
#![tactic(auto)]

ghost use Rattle.std.specs.Prelude.{◌≡◌, ◌+◌, ◌≤◌, length};
ghost use Rattle.model.specs.Signal.{remap_order};
ghost use Rattle.tables.specs.Layout.{net_size, span};
ghost use Rattle.tables.specs.Building.{put_outputs};
ghost use Rattle.translation.specs.Tables.{cleared_table, tr_of, outputs_by};

use signal::Signal;
use tables::layout::{output_at, put_output};
use tables::scratch::TR;

// The first n words of a table, zero.
pub fn clear_table(to: &mut [u32], base: usize, n: usize)
    requires { base + n ≤ length to.old }
    ensures { to.new ≡ cleared_table to.old base n }
{
    to[base..base + n].fill(0);
}

// A signal through the translation of the nodes.
pub fn translate(to: &[u32], s: u32) -> u32
    requires { span ≤ length to.now }
    ensures { result ≡ remap_order (tr_of to.now) s }
{
    Signal { a: s }.remap_order(&to[TR..TR + 512]).a
}

// The n outputs, translated.
pub fn remap_outputs(from: &[u32], to: &mut [u32], n: usize)
    requires { (net_size ≤ length from.now) × (span ≤ length to.old) × (n ≤ 64) }
    ensures { to.new ≡ put_outputs to.old (outputs_by from.now (tr_of to.old)) n }
{
    for o in 0..n {
        let s = translate(to, output_at(from, o));
        put_output(to, o, s);
    }
}
