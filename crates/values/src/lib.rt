// One node's value from the values before it.
#![tactic(auto)]

ghost use Rattle.std.specs.Prelude.{◌≡◌, ◌<◌, ◌≤◌, eqb, ltb, length};
ghost use Rattle.signal_values.specs.Signals.{is_odd, ones_to, Gated};
ghost use Rattle.signal_values.specs.Inputs.{input_of};
ghost use Rattle.values.specs.Values.{gate_value_at, shown_at};

use kinds::{Kind, kind_of};
use mux_and_lut::{lut, mux};
use signal_values::gate_inputs::Inputs;
use signal_values::is_dff;
use tables::layout::kind_at;

// The short gates, without a loop.
fn buf(ins: &Inputs) -> u32
    requires { 1 ≤ ins.now.count }
    ensures { is_odd result ≡ ltb 0 (ones_to (input_of ins.now) 1) }
{
    ins.word(0)
}

fn and_2(ins: &Inputs) -> u32
    requires { 2 ≤ ins.now.count }
    ensures { is_odd result ≡ eqb (ones_to (input_of ins.now) 2) 2 }
{
    let a = ins.word(0);
    let b = ins.word(1);
    a & b
}

fn xor_2(ins: &Inputs) -> u32
    requires { 2 ≤ ins.now.count }
    ensures { is_odd result ≡ is_odd (ones_to (input_of ins.now) 2) }
{
    let a = ins.word(0);
    let b = ins.word(1);
    a ^ b
}

// Whether an odd number of inputs are one.
fn odd(ins: &Inputs) -> bool
    ensures { result ≡ is_odd (ones_to (input_of ins.now) ins.now.count) }
{
    ins.ones() & 1 == 1
}

// The gate of node v, in a word's lowest bit. Where the number of the inputs that are one is all that matters, an And or an Or goes no
// further than the input that decides.
fn gate_word(from: &[u32], to: &[u32], v: usize) -> u32
    requires { Gated from.now to.now v }
    ensures { is_odd result ≡ gate_value_at from.now to.now v }
{
    let ins = Inputs::of(from, to, v);
    match kind_of(kind_at(from, v)) {
        Kind::And2 => and_2(&ins),
        Kind::Xor2 => xor_2(&ins),
        Kind::And3 | Kind::AndN => u32::from(ins.all_are(true)),
        Kind::NandN => u32::from(!ins.all_are(true)),
        Kind::OrN => u32::from(!ins.all_are(false)),
        Kind::NorN => u32::from(ins.all_are(false)),
        Kind::Xor3 | Kind::XorN => u32::from(odd(&ins)),
        Kind::XnorN => u32::from(!odd(&ins)),
        Kind::Maj => u32::from(1 < ins.ones()),
        Kind::Mux => u32::from(mux(&ins)),
        Kind::Buf => buf(&ins),
        Kind::Dff => 0,
        Kind::Lut => u32::from(lut(&ins, v)),
    }
}

// What node v shows, in a word's lowest bit: a flip-flop its state, any other gate its value.
pub fn node_word(from: &[u32], to: &[u32], state: &[u8], v: usize) -> u32
    requires { Gated from.now to.now v × (v < length state.now) }
    ensures { is_odd result ≡ shown_at from.now to.now state.now v }
{
    if is_dff(from, v) {
        return u32::from(state[v] == 1);
    }
    gate_word(from, to, v)
}
