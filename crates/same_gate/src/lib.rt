// Whether a new node of dedup has the gate that is sought.
#![tactic(auto)]

ghost use Rattle.std.specs.Prelude.{◌≡◌, ◌+◌, ◌≤◌, length};
ghost use Rattle.model.specs.Network.{same_gate};
ghost use Rattle.tables.specs.Layout.{gate_at};
ghost use Rattle.same_gate.specs.Listed.{same_ins, listed, Searched};

use tables::layout::{count_at, first_at, high_at, input_at, kind_at, low_at};
use tables::scratch::word;

// Behind every other table: room for all inputs that a gate can have, and for three.
pub const LIST: usize = 11328;

// The gate that is sought, by its kind's code: its n inputs stand in the list.
#[derive(Clone, Copy)]
pub struct Sought {
    pub kind: u32,
    pub n: usize,
    pub low: u32,
    pub high: u32,
}

// Whether the n inputs from `first` on are those in the list.
fn same_inputs(to: &[u32], first: usize, n: usize) -> bool
    requires { (16384 ≤ length to.now) × (first + n ≤ 2048) }
    ensures { result ≡ same_ins to.now first n }
{
    for j in 0..n {
        if word(to, LIST, j) != input_at(to, first + j) {
            return false;
        }
    }
    true
}

// Whether node w's gate is the one sought: kind, inputs in order and table agree.
pub fn same_gate(to: &[u32], w: usize, g: Sought) -> bool
    requires { Searched to.now (w + 1) }
    ensures { result ≡ same_gate (listed to.now g) (gate_at to.now w) }
{
    if g.kind != kind_at(to, w) {
        return false;
    }
    if g.n != count_at(to, w) {
        return false;
    }
    if !same_inputs(to, first_at(to, w), g.n) {
        return false;
    }
    (g.low == low_at(to, w)) & (g.high == high_at(to, w))
}
