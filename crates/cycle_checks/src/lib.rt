// 14: what a cycle looks for in bytes. Those of the inputs are looked at and put down in one pass.
#![tactic(auto)]

ghost use Rattle.std.specs.Prelude.{◌≡◌, ◌≤◌, length};
ghost use Rattle.laws.specs.Lists.{some_below};
ghost use Rattle.tables.specs.Layout.{net_size};
ghost use Rattle.signal_values.specs.Signals.{values_end};
ghost use Rattle.cycle_checks.specs.Checks.{inputs_to, above_one, cell_above};

use signal_values::{VALUES, is_dff};
use tables::scratch::put_word;

// The inputs' values, from the far end of the table; whether one of their bytes is above 1.
pub fn take_inputs(to: &mut [u32], inputs: &[u8], i: usize) -> bool
    requires { (values_end ≤ length to.old) × (i ≤ length inputs.now) × (i ≤ 1024) }
    ensures { (to.new ≡ inputs_to inputs.now to.old i) × (result ≡ some_below (above_one inputs.now) i) }
{
    let mut above = false;
    for k in 0..i {
        put_word(to, VALUES, 2047 - k, u32::from(inputs[k] == 1));
        above |= 1 < inputs[k];
    }
    above
}

// The state byte of a flip-flop is above 1.
pub fn state_above(from: &[u32], state: &[u8], n: usize) -> bool
    requires { (n ≤ 512) × (net_size ≤ length from.now) × (n ≤ length state.now) }
    ensures { result ≡ some_below (cell_above from.now state.now) n }
{
    for v in 0..n {
        if is_dff(from, v) & (1 < state[v]) {
            return true;
        }
    }
    false
}
