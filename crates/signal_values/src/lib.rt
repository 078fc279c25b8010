// The values of a cycle, a word for each index that a signal can have: the constant's, the nodes', and from the far end the
// inputs'. A signal's value is one reading.
#![tactic(auto)]

ghost use Rattle.std.specs.Prelude.{◌≡◌, cond, ◌+◌, ◌<◌, ◌≤◌, eqb, length};
ghost use Rattle.laws.specs.Lists.{tab};
ghost use Rattle.model.specs.Evaluate.{weight};
ghost use Rattle.tables.specs.Layout.{net_size};
ghost use Rattle.signal_values.specs.Signals.{values_end, slot, is_odd, value_at, ones_to, dff_at, Gated};
ghost use Rattle.signal_values.specs.Inputs.{input_of, InputsOf};

use crate::gate_inputs::Inputs;
use kinds::is_flip_flop_code;
use tables::layout::{count_at, first_at, input_at, kind_at};
use tables::scratch::word;

pub mod gate_inputs;

// They take the place of the tables behind a network, up to the stack.
pub const VALUES: usize = 4672;

// Where the value of a signal's index stands: the index's low 11 bits tell all of them apart.
fn slot(s: u32) -> usize
    ensures { result ≡ slot s }
{
    ((s >> 1) & 2047) as usize
}

// A signal's value as a word of which the lowest bit counts alone: the next gate waits for no mask.
pub fn value_word(to: &[u32], s: u32) -> u32
    requires { values_end ≤ length to.now }
    ensures { is_odd result ≡ value_at to.now s }
{
    let x = word(to, VALUES, slot(s));
    x ^ s
}

pub fn value(to: &[u32], s: u32) -> bool
    requires { values_end ≤ length to.now }
    ensures { result ≡ value_at to.now s }
{
    value_word(to, s) & 1 == 1
}

impl<'a> Inputs<'a> {
    // The inputs of node v.
    pub fn of(from: &'a [u32], to: &'a [u32], v: usize) -> Inputs<'a>
        requires { Gated from.now to.now v }
        ensures { InputsOf from.now to.now v result }
    {
        Inputs {
            from,
            to,
            first: first_at(from, v),
            count: count_at(from, v),
        }
    }

    // The j-th input's value as a word of which the lowest bit counts alone.
    pub fn word(&self, j: usize) -> u32
        requires { j < self.now.count }
        ensures { is_odd result ≡ input_of self.now j }
    {
        value_word(self.to, input_at(self.from, self.first + j))
    }

    pub fn value(&self, j: usize) -> bool
        requires { j < self.now.count }
        ensures { result ≡ input_of self.now j }
    {
        value(self.to, input_at(self.from, self.first + j))
    }

    // How many are one.
    pub fn ones(&self) -> usize
        ensures { result ≡ ones_to (input_of self.now) self.now.count }
    {
        let mut n: usize = 0;
        for j in 0..self.count {
            n += usize::from(self.value(j));
        }
        n
    }

    // Whether each is b: no further than the first that is not.
    pub fn all_are(&self, b: bool) -> bool
        ensures { result ≡ eqb (ones_to (input_of self.now) self.now.count) (cond b self.now.count 0) }
    {
        for j in 0..self.count {
            if self.value(j) != b {
                return false;
            }
        }
        true
    }

    // The number that a Lut's inputs make, input k with weight 2^k.
    pub fn weight(&self) -> usize
        requires { self.now.count ≤ 6 }
        ensures { result ≡ weight (tab (input_of self.now) self.now.count) }
    {
        let mut w: usize = 0;
        for j in (0..self.count).rev() {
            w = 2 * w + usize::from(self.value(j));
        }
        w
    }
}

// Whether node v is a flip-flop.
pub fn is_dff(from: &[u32], v: usize) -> bool
    requires { (v < 512) × (net_size ≤ length from.now) }
    ensures { result ≡ dff_at from.now v }
{
    is_flip_flop_code(kind_at(from, v))
}
