// The order of what cleanup keeps: the marked nodes, as they were.
#![tactic(auto)]

ghost use Rattle.std.specs.Prelude.{◌+◌, ◌<◌};
ghost use Rattle.keep_marked.specs.Orders.{Marked, Keeping};

use tables::counts::Counts;
use tables::scratch::{MARK, ORDER, put_word, word};

// A marked node goes behind what is kept; how many are.
fn keep_node(from: &[u32], to: &mut [u32], c: Counts, v: usize, k: usize) -> usize
    requires { Keeping from.now to.old c v k × (v < c.nodes) }
    ensures { Keeping from.now to.new c (v + 1) result }
{
    if 0 < word(to, MARK, v) {
        put_word(to, ORDER, k, v as u32);
        return k + 1;
    }
    k
}

pub fn keep_marked(from: &[u32], to: &mut [u32], c: Counts) -> usize
    requires { Marked from.now to.old c }
    ensures { Keeping from.now to.new c c.nodes result }
{
    let mut k: usize = 0;
    for v in 0..c.nodes {
        k = keep_node(from, to, c, v, k);
    }
    k
}
