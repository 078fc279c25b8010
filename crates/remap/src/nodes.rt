// Signals by the node that they name.
ghost use Rattle.std.specs.Prelude.{◌≡◌, true, ◌-◌, ◌/◌};
ghost use Rattle.model.specs.Signal.{is_var};

use signal::Signal;

// Whether a signal is a node's.
pub fn is_node(s: u32) -> bool
    ensures { result ≡ is_var s }
{
    Signal { a: s }.is_var()
}

pub fn node_of(s: u32) -> usize
    requires { is_var s ≡ true }
    ensures { result ≡ s / 2 - 1 }
{
    Signal { a: s }.var() as usize
}
