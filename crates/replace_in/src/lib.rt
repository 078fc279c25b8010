// One gate's part of replace_pair: where it holds both signals they are taken out, and the new node is put last.
#![tactic(auto)]

ghost use Rattle.std.specs.Prelude.{◌≡◌, ◌<◌, ◌≤◌, length};
ghost use Rattle.model.specs.Sharing.{take_out};
ghost use Rattle.pairs.specs.Lists.{area_size, start_at, list_at, put_list, Laid};
ghost use Rattle.replace_in.specs.Words.{kept_one, replaced_in};

use count_pair::holds_both;
use pairs::lists::{left_at, put_left, put_sig, sig_at, start_at};

// Stores s at place k, unless it is a or b; how many were stored.
fn keep_one(area: &mut [u32], k: usize, s: u32, a: u32, b: u32) -> usize
    requires { (k < 2048) × (area_size ≤ length area.old) }
    ensures { (result ≡ length (kept_one a b s)) × (area.new ≡ put_list area.old k (kept_one a b s)) }
{
    if s == a || s == b {
        return 0;
    }
    put_sig(area, k, s);
    1
}

// Moves the signals of gate i other than a and b to its front; how many they are.
fn take_out(area: &mut [u32], g: usize, i: usize, a: u32, b: u32) -> usize
    requires { Laid area.old g × (i < g) }
    ensures { (result ≡ length (take_out a b (list_at area.old i))) × (area.new ≡ put_list area.old (start_at area.old i) (take_out a b (list_at area.old i))) }
{
    let f = start_at(area, i);
    let n = left_at(area, i);
    let mut w: usize = 0;
    for j in 0..n {
        let s = sig_at(area, f + j);
        w += keep_one(area, f + w, s, a, b);
    }
    w
}

// In gate i, z for a and b where it holds both.
pub fn replace_in(area: &mut [u32], g: usize, i: usize, a: u32, b: u32, z: u32)
    requires { Laid area.old g × (i < g) }
    ensures { area.new ≡ replaced_in area.old i a b z }
{
    if !holds_both(area, g, i, a, b) {
        return;
    }
    let f = start_at(area, i);
    let w = take_out(area, g, i, a, b);
    put_sig(area, f + w, z);
    put_left(area, i, (w + 1) as u32);
}
