// The loops of dedup over the old nodes.
ghost use Rattle.std.specs.Prelude.{◌≡◌, ◌≤◌, length};
ghost use mathlib.Core.Bool.{beq};
ghost use Rattle.placing.specs.Lists.{of_flip_flops};
ghost use Rattle.dedup.specs.States.{numbered, Sweeping};

use dedup_node::dedup_node;
use kinds::{is_flip_flop, kind_of};
use placing::Built;
use placing::list::Sweep;
use signal::Signal;
use tables::counts::Counts;
use tables::layout::kind_at;
use tables::scratch::{TR, put_word};

// Each node's signal is its own, at first.
pub fn number_nodes(to: &mut [u32], n: usize)
    requires { (16384 ≤ length to.old) × (n ≤ 512) }
    ensures { to.new ≡ numbered to.old n }
{
    for v in 0..n {
        put_word(to, TR, v, Signal::from_var(v as u32).a);
    }
}

// Whether a sweep merges a node, which is a flip-flop or none.
fn takes(by: Sweep, flip_flop: bool) -> bool
    ensures { result ≡ beq flip_flop (of_flip_flops by) }
{
    match by {
        Sweep::FlipFlops => flip_flop,
        Sweep::Gates => !flip_flop,
    }
}

// Dedup the flip-flops, or the gates.
pub fn sweep(from: &[u32], to: &mut [u32], c: Counts, b: Built, by: Sweep, canonical: bool) -> Built
    requires { Sweeping from.now to.old c (of_flip_flops by) canonical 0 b }
    ensures { Sweeping from.now to.new c (of_flip_flops by) canonical c.nodes result }
{
    let mut built = b;
    for v in 0..c.nodes {
        if takes(by, is_flip_flop(kind_of(kind_at(from, v)))) {
            built = dedup_node(from, to, v, built, by, canonical);
        }
    }
    built
}
