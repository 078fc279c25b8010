// What flip-flops store at the end of a cycle.
#![tactic(auto)]

ghost use Rattle.std.specs.Prelude.{◌≡◌, ◌≤◌};
ghost use Rattle.laws.specs.Lists.{tab};
ghost use Rattle.model.specs.Answers.{laid_over};
ghost use Rattle.flip_flops.specs.Storing.{stored, new_byte, Passing};

use signal_values::gate_inputs::Inputs;
use signal_values::is_dff;

// What a flip-flop stores, by its inputs' values: en zero holds; en one with res one stores zero; else d is stored.
fn new_state(ins: &Inputs, q: bool) -> bool
    requires { 3 ≤ ins.now.count }
    ensures { result ≡ stored ins.now q }
{
    if !ins.value(1) {
        return q;
    }
    ins.value(0) & !ins.value(2)
}

// All flip-flops change together: by the values of the cycle, in which no state that is written here is read.
pub fn put_states(from: &[u32], to: &[u32], state: &mut [u8], n: usize)
    requires { Passing from.now to.now state.old n }
    ensures { state.new ≡ laid_over (tab (new_byte from.now to.now state.old) n) state.old }
{
    for v in 0..n {
        if is_dff(from, v) {
            state[v] = u8::from(new_state(&Inputs::of(from, to, v), state[v] == 1));
        }
    }
}
