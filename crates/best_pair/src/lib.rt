// find_best_pair by a fresh count.
#![tactic(auto)]

ghost use Rattle.std.specs.Prelude.{◌≡◌, ◌<◌};
ghost use Rattle.model.specs.Sharing.{top_in, find_best_pair};
ghost use Rattle.pairs.specs.Lists.{left_at, list_at, lists_of, Laid};
ghost use Rattle.top_pair.specs.Tops.{top_of};
ghost use Rattle.best_pair.specs.Search.{considered, with_top, in_top, best_of};

use count_pair::count_pair;
use pairs::lists::{left_at, sig_at, start_at};
use top_pair::{Top, wins};

fn consider_pair(area: &[u32], g: usize, a: u32, b: u32, t: Top) -> Top
    requires { Laid area.now g }
    ensures { top_of result ≡ considered (lists_of area.now g) (top_of t) a b }
{
    let n = count_pair(area, g, a, b);
    if wins(n, a, b, t) {
        return Top { n: n, a: a, b: b };
    }
    t
}

fn consider_both(area: &[u32], g: usize, a: u32, b: u32, t: Top) -> Top
    requires { Laid area.now g }
    ensures { top_of result ≡ with_top (lists_of area.now g) (top_of t) a b }
{
    consider_pair(area, g, a.min(b), a.max(b), t)
}

// The pairs of signal j of gate i with those after it.
fn best_with(area: &[u32], g: usize, i: usize, j: usize, t: Top) -> Top
    requires { Laid area.now g × (i < g) × (j < left_at area.now i) }
    ensures { top_of result ≡ in_top (lists_of area.now g) (top_of t) (list_at area.now i) j }
{
    let f = start_at(area, i);
    let n = left_at(area, i);
    let a = sig_at(area, f + j);
    let mut u = t;
    for k in j + 1..n {
        u = consider_both(area, g, a, sig_at(area, f + k), u);
    }
    u
}

// All pairs of gate i.
fn best_in(area: &[u32], g: usize, i: usize, t: Top) -> Top
    requires { Laid area.now g × (i < g) }
    ensures { top_of result ≡ top_in (lists_of area.now g) (top_of t) (list_at area.now i) }
{
    let n = left_at(area, i);
    let mut u = t;
    for j in 0..n {
        u = best_with(area, g, i, j, u);
    }
    u
}

// The pair that most gates hold, by a fresh count; ties go to the smaller first word, then the smaller second.
pub fn find_best_pair(area: &[u32], g: usize) -> Option<(u32, u32)>
    requires { Laid area.now g }
    ensures { result ≡ best_of (find_best_pair (lists_of area.now g)) }
{
    let mut u = Top { n: 0, a: 0, b: 0 };
    for i in 0..g {
        u = best_in(area, g, i, u);
    }
    if u.n == 0 {
        return None;
    }
    Some((u.a, u.b))
}
