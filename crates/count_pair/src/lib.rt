// How many gates hold a pair, by a fresh count.
#![tactic(auto)]

ghost use Rattle.std.specs.Prelude.{◌≡◌, ◌<◌};
ghost use Rattle.model.specs.Network.{has};
ghost use Rattle.model.specs.Sharing.{holds, together};
ghost use Rattle.pairs.specs.Lists.{list_at, lists_of, Laid};

use pairs::lists::{left_at, sig_at, start_at};

// Whether gate i has signal x left.
pub fn has_signal(area: &[u32], g: usize, i: usize, x: u32) -> bool
    requires { Laid area.now g × (i < g) }
    ensures { result ≡ has x (list_at area.now i) }
{
    let f = start_at(area, i);
    let n = left_at(area, i);
    for j in 0..n {
        if sig_at(area, f + j) == x {
            return true;
        }
    }
    false
}

pub fn holds_both(area: &[u32], g: usize, i: usize, a: u32, b: u32) -> bool
    requires { Laid area.now g × (i < g) }
    ensures { result ≡ holds a b (list_at area.now i) }
{
    has_signal(area, g, i, a) && has_signal(area, g, i, b)
}

// How many gates hold both.
pub fn count_pair(area: &[u32], g: usize, a: u32, b: u32) -> usize
    requires { Laid area.now g }
    ensures { result ≡ together a b (lists_of area.now g) }
{
    let mut n: usize = 0;
    for i in 0..g {
        n += usize::from(holds_both(area, g, i, a, b));
    }
    n
}
