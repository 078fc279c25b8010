// A gate's words and the outputs' copied from one network to another, as they are.
#![tactic(auto)]

ghost use Rattle.std.specs.Prelude.{◌≡◌};
ghost use Rattle.copying.specs.Copies.{Putting, put_copy};

pub use tables::layout::copy_outputs;
use tables::layout::{
    copy_inputs, count_at, first_at, high_at, kind_at, low_at, put_gate, put_table,
};

// Node v, its input words to place `at`.
pub fn copy_gate(from: &[u32], to: &mut [u32], v: usize, at: usize)
    requires { Putting from.now to.old v at }
    ensures { to.new ≡ put_copy from.now to.old v at }
{
    let n = count_at(from, v);
    copy_inputs(from, to, first_at(from, v), at, n);
    put_gate(to, v, kind_at(from, v), at as u32, n as u32);
    put_table(to, v, low_at(from, v), high_at(from, v));
}
