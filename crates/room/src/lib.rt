// How many new nodes a pass has room for under 12.
#![tactic(auto)]

ghost use Rattle.std.specs.Prelude.{◌≡◌};
ghost use Rattle.tables.specs.Layout.{nodes_of};
ghost use Rattle.shape.specs.Room.{buf_inputs, room_of};
ghost use Rattle.uses.specs.Loading.{Source};

use kinds::Family;
use tables::layout::count_at;
use uses::count::takes;

// The gate inputs, each gate of the pass being a Buf.
fn buf_inputs(from: &[u32], n: usize, f: Family) -> usize
    requires { Source from.now n }
    ensures { result ≡ buf_inputs f (nodes_of from.now n) }
{
    let mut t: usize = 0;
    for v in 0..n {
        t += if takes(from, f, v) {
            1
        } else {
            count_at(from, v)
        };
    }
    t
}

// Each new node is one more, and has two inputs.
pub fn room_for(from: &[u32], n: usize, f: Family) -> usize
    requires { Source from.now n }
    ensures { result ≡ room_of f (nodes_of from.now n) }
{
    let t = buf_inputs(from, n, f);
    (512 - n).min((2048 - t) / 2)
}
