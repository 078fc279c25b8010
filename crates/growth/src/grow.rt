// The grown network, written in front of the lists: each gate of the pass a Buf of the one signal left of it, then the pairs.
ghost use Rattle.std.specs.Prelude.{◌≡◌};
ghost use Rattle.kinds.specs.Kinds.{code_of};
ghost use Rattle.model.specs.Sharing.{two_of};
ghost use Rattle.tables.specs.Building.{put_node};
ghost use Rattle.growth.specs.Growing.{either, Puts, Begun, Nodes, Paired, Whole, Ended, Grows};

use copying::{copy_gate, copy_outputs};
use kinds::{Family, Kind};
use pairs::lists::{pair_first, pair_second, sig_at, start_at};
use tables::counts::Counts;
use tables::layout::{count_at, put_gate, put_input, put_table};
use uses::count::takes;

// Node v as a Buf of s.
fn put_buf(to: &mut [u32], v: usize, at: usize, s: u32)
    requires { Puts to.old v at 1 }
    ensures { to.new ≡ put_node to.old v (code_of Kind.Buf) at (either s s) 1 0 0 }
{
    put_input(to, at, s);
    put_gate(to, v, u32::from(Kind::Buf), at as u32, 1);
    put_table(to, v, 0, 0);
}

// Node v as the pair of a and b.
fn put_two(to: &mut [u32], v: usize, f: Family, at: usize, a: u32, b: u32)
    requires { Puts to.old v at 2 }
    ensures { to.new ≡ put_node to.old v (code_of (two_of f)) at (either a b) 2 0 0 }
{
    put_input(to, at, a);
    put_input(to, at + 1, b);
    put_gate(to, v, u32::from(two(f)), at as u32, 2);
    put_table(to, v, 0, 0);
}

// The family's kind of two inputs: the Rust's builder.
fn two(f: Family) -> Kind
    ensures { result ≡ two_of f }
{
    match f {
        Family::And => Kind::And2,
        Family::Xor => Kind::Xor2,
    }
}

// The old nodes; how many gate inputs they have.
fn put_nodes(from: &[u32], to: &mut [u32], n: usize, f: Family) -> usize
    requires { Begun f from.now to.old n }
    ensures { Nodes f from.now to.old to.new n result }
{
    let mut i: usize = 0;
    let mut at: usize = 0;
    for v in 0..n {
        if takes(from, f, v) {
            let s = sig_at(to, start_at(to, i));
            put_buf(to, v, at, s);
            i += 1;
            at += 1;
        } else {
            copy_gate(from, to, v, at);
            at += count_at(from, v);
        }
    }
    at
}

// The new nodes, k of them.
fn put_pairs(to: &mut [u32], n: usize, k: usize, f: Family, at: usize)
    requires { Paired to.old n k at }
    ensures { Whole f to.old to.new n k at }
{
    for j in 0..k {
        let a = pair_first(to, n + j);
        let b = pair_second(to, n + j);
        put_two(to, n + j, f, at + 2 * j, a, b);
    }
}

// The whole grown network, with k new nodes.
pub fn grow(from: &[u32], to: &mut [u32], counts: Counts, f: Family, k: usize) -> Counts
    requires { Ended f from.now to.old counts k }
    ensures { Grows f from.now to.new counts result }
{
    let n = counts.nodes;
    let m = counts.outs;
    let at = put_nodes(from, to, n, f);
    put_pairs(to, n, k, f, at);
    copy_outputs(from, to, m);
    Counts {
        inputs: counts.inputs,
        nodes: n + k,
        outs: m,
    }
}
