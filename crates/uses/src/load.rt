// separate_exclusive_signals: the lists of the gates' signals, but for those used once.
ghost use Rattle.std.specs.Prelude.{◌≡◌, ◌+◌, ◌*◌, ◌-◌, ◌/◌, ◌<◌, ◌≤◌};
ghost use Rattle.model.specs.Sharing.{places_of};
ghost use Rattle.pairs.specs.Lists.{lists_of, Laid};
ghost use Rattle.uses.specs.Loading.{One, Stored, Picks, Picked, Loads, loaded_in, Loadable, lists_in, Separated};

use crate::count::{is_once, takes};
use kinds::Family;
use pairs::lists::{left_at, put_left, put_sig, put_start};
use tables::layout::{count_at, first_at, input_at};

// Stores s at place k where it is wanted; how many were stored.
fn pick_one(to: &mut [u32], k: usize, s: u32, once: bool) -> usize
    requires { One to.old k s once }
    ensures { Stored to.old to.new k s once result }
{
    if is_once(to, s) ^ once {
        return 0;
    }
    put_sig(to, k, s);
    1
}

// Copies those signals of node v that are used once, or the others, to place at and on; how many they are.
pub fn pick_signals(from: &[u32], to: &mut [u32], v: usize, at: usize, once: bool) -> usize
    requires { Picks from.now to.old v at once }
    ensures { Picked from.now to.old to.new v at once result }
{
    let f = first_at(from, v);
    let n = count_at(from, v);
    let mut w: usize = 0;
    for j in 0..n {
        w += pick_one(to, at + w, input_at(from, f + j), once);
    }
    w
}

// The signals of node v that are used more than once, as list i, at place at.
fn load_gate(from: &[u32], to: &mut [u32], v: usize, i: usize, at: usize)
    requires { Loads from.now to.old v i at }
    ensures { to.new ≡ loaded_in from.now to.old v i at }
{
    let w = pick_signals(from, to, v, at, false);
    put_start(to, i, at as u32);
    put_left(to, i, w as u32);
}

// The lists of the pass; how many they are. Each has room for all the signals of its gate.
pub fn separate_exclusive_signals(from: &[u32], to: &mut [u32], n: usize, f: Family) -> usize
    requires { Loadable (lists_in f from.now n) from.now to.old n }
    ensures { Separated (lists_in f from.now n) to.new result }
{
    let mut i: usize = 0;
    let mut at: usize = 0;
    for v in 0..n {
        if takes(from, f, v) {
            load_gate(from, to, v, i, at);
            at += count_at(from, v);
            i += 1;
        }
    }
    i
}

// Pair places of m signals.
fn places_of(m: usize) -> usize
    requires { m ≤ 2048 }
    ensures { (result ≡ m * (m - 1) / 2) × (result ≤ 4194304) }
{
    m * m.saturating_sub(1) / 2
}

// The pair places of the first g lists.
pub fn pair_places(to: &[u32], g: usize) -> usize
    requires { Laid to.now g }
    ensures { result ≡ places_of (lists_of to.now g) }
{
    let mut t: usize = 0;
    for i in 0..g {
        t += places_of(left_at(to, i));
    }
    t
}
