// gates.rs: what a normalization is, and the gates of two inputs. A normalization is a copy of a signal, or a gate with an
// inversion whose inputs stand at the front of a lent list.
#![tactic(auto)]

ghost use Rattle.std.specs.Prelude.{◌≡◌, ◌≤◌, map, length};
ghost use Rattle.model.specs.Normal.{made, gate_of};
ghost use Rattle.gates.specs.Normals.{normal_of};

use kinds::Kind;
use signal::Signal;

pub mod binary;
pub mod order;

#[derive(Clone, Copy, PartialEq, Eq)]
pub enum Normalization {
    // The trivial case: the gate is a signal.
    Copy(Signal),
    // A gate over the first count words of the list, with an optional inversion.
    Node { kind: Kind, count: usize, inv: bool },
}

// A gate of N inputs, with an optional inversion.
pub fn made<const N: usize>(
    kind: Kind,
    ins: [Signal; N],
    inv: bool,
    list: &mut [u32],
) -> Normalization
    requires { N ≤ length list.old }
    ensures { normal_of result list.new ≡ made (gate_of kind (map (λ s. s.a) ins.entry)) inv }
{
    for i in 0..N {
        list[i] = ins[i].a;
    }
    Normalization::Node {
        kind,
        count: N,
        inv,
    }
}
