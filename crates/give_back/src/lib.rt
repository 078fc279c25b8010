// share_logic.rs, Factoring: the signals that separate_exclusive_signals set aside, given back to their gates.
#![tactic(auto)]

ghost use Rattle.std.specs.Prelude.{◌≡◌};
ghost use Rattle.uses.specs.Loading.{lists_in};
ghost use Rattle.give_back.specs.Giving.{Gives, given_in, Givable, GivenBack};

use kinds::Family;
use pairs::lists::{left_at, put_left, start_at};
use uses::count::takes;
use uses::load::pick_signals;

// Behind what is left of list i, the signals of node v that are used once.
fn give_gate(from: &[u32], to: &mut [u32], v: usize, i: usize)
    requires { Gives from.now to.old v i }
    ensures { to.new ≡ given_in from.now to.old v i }
{
    let f = start_at(to, i);
    let m = left_at(to, i);
    let w = pick_signals(from, to, v, f + m, true);
    put_left(to, i, (m + w) as u32);
}

// Each gate gets its set-aside signals back at its end.
pub fn give_back(from: &[u32], to: &mut [u32], n: usize, f: Family)
    requires { Givable (lists_in f from.now n) from.now to.old n }
    ensures { GivenBack (lists_in f from.now n) to.old to.new }
{
    let mut i: usize = 0;
    for v in 0..n {
        if takes(from, f, v) {
            give_gate(from, to, v, i);
            i += 1;
        }
    }
}
