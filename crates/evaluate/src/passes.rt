// The passes of a cycle over nodes and outputs.
ghost use Rattle.std.specs.Prelude.{◌≡◌};
ghost use Rattle.laws.specs.Lists.{tab};
ghost use Rattle.model.specs.Answers.{laid_over};
ghost use Rattle.flip_flops.specs.Storing.{Passing};
ghost use Rattle.evaluate.specs.Passes.{SameValues, forward_to, output_byte, Putting};

use signal_values::{VALUES, value};
use tables::layout::output_at;
use tables::scratch::put_word;
use values::node_word;

// The forward pass: each node's value, by the values of the nodes before it.
pub fn forward(from: &[u32], to: &mut [u32], state: &[u8], n: usize)
    requires { Passing from.now to.old state.now n }
    ensures { SameValues to.new (forward_to from.now state.now to.old n) }
{
    for v in 0..n {
        put_word(to, VALUES, v + 1, node_word(from, to, state, v));
    }
}

pub fn put_outputs(from: &[u32], to: &[u32], outputs: &mut [u8], o: usize)
    requires { Putting from.now to.now outputs.old o }
    ensures { outputs.new ≡ laid_over (tab (output_byte from.now to.now) o) outputs.old }
{
    for j in 0..o {
        outputs[j] = u8::from(value(to, output_at(from, j)));
    }
}
