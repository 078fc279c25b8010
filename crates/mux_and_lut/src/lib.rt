// The value of a Mux and of a Lut: the gates that do not go by how many of their inputs are one.
#![tactic(auto)]

ghost use Rattle.std.specs.Prelude.{◌≡◌, cond, ◌<◌, ◌≤◌};
ghost use Rattle.signal_values.specs.Inputs.{input_of};
ghost use Rattle.mux_and_lut.specs.Tables.{lut_of};

use signal_values::gate_inputs::Inputs;
use tables::layout::{high_at, low_at};

// a if s, else b.
pub fn mux(ins: &Inputs) -> bool
    requires { 3 ≤ ins.now.count }
    ensures { result ≡ cond (input_of ins.now 0) (input_of ins.now 1) (input_of ins.now 2) }
{
    let s = ins.value(0);
    let a = ins.value(1);
    let b = ins.value(2);
    (s & a) | (!s & b)
}

// The table's bit whose number the inputs of node v make.
pub fn lut(ins: &Inputs, v: usize) -> bool
    requires { (ins.now.count ≤ 6) × (v < 512) }
    ensures { result ≡ lut_of ins.now v }
{
    let w = ins.weight();
    let t = low_at(ins.from, v) as usize + 4294967296 * (high_at(ins.from, v) as usize);
    (t >> w) & 1 == 1
}
