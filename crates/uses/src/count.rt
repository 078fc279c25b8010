// count_signal_usage: which signals the gates of a pass use once.
ghost use Rattle.std.specs.Prelude.{◌≡◌, ◌<◌, ◌≤◌, length};
ghost use Rattle.model.specs.Sharing.{takes};
ghost use Rattle.tables.specs.Layout.{net_size, ins_at, gate_at};
ghost use Rattle.pairs.specs.Lists.{area_size, zeroed};
ghost use Rattle.uses.specs.Uses.{use_ix, use_room, Named, bump, tally, tally_all, is_once};
ghost use Rattle.uses.specs.Loading.{Counting, Between, lists_in, Marked};

use kinds::{Family, in_family, kind_of};
use pairs::lists::{clear_used, put_used, used_at};
use tables::layout::{count_at, first_at, input_at, kind_at};

// The words of the table.
const USES: usize = 3074;

// Whether node v is a gate of the pass.
pub fn takes(from: &[u32], f: Family, v: usize) -> bool
    requires { (v < 512) × (net_size ≤ length from.now) }
    ensures { result ≡ takes f (gate_at from.now v) }
{
    in_family(kind_of(kind_at(from, v)), f) & (1 < count_at(from, v))
}

// A signal's place in the table: nodes in front, then inputs.
fn use_ix(s: u32) -> usize
    requires { Named s }
    ensures { (result ≡ use_ix s) × (result < use_room) }
{
    if s < 0x8000_0000 {
        return s as usize;
    }
    1026 + (0xFFFF_FFFF - s) as usize
}

// One more use of s; two stand for more.
fn note_use(to: &mut [u32], s: u32)
    requires { Named s × (area_size ≤ length to.old) }
    ensures { to.new ≡ bump to.old s }
{
    let i = use_ix(s);
    let v = used_at(to, i);
    if v < 2 {
        put_used(to, i, v + 1);
    }
}

pub fn is_once(to: &[u32], s: u32) -> bool
    requires { Named s × (area_size ≤ length to.now) }
    ensures { result ≡ is_once to.now s }
{
    let i = use_ix(s);
    used_at(to, i) == 1
}

// The uses of one gate.
fn count_gate(from: &[u32], to: &mut [u32], v: usize)
    requires { Counting from.now to.old v }
    ensures { to.new ≡ tally to.old (ins_at from.now v) }
{
    let f = first_at(from, v);
    let n = count_at(from, v);
    for j in 0..n {
        note_use(to, input_at(from, f + j));
    }
}

// The uses of the gates of the pass.
fn count_uses(from: &[u32], to: &mut [u32], n: usize, f: Family)
    requires { Between from.now to.old n }
    ensures { to.new ≡ tally_all to.old (lists_in f from.now n) }
{
    for v in 0..n {
        if takes(from, f, v) {
            count_gate(from, to, v);
        }
    }
}

fn clear_uses(to: &mut [u32])
    requires { area_size ≤ length to.old }
    ensures { to.new ≡ zeroed to.old use_room }
{
    clear_used(to, USES);
}

// Counts the uses afresh: the table may hold anything, and what is behind it stays.
pub fn count_signal_usage(from: &[u32], to: &mut [u32], n: usize, f: Family)
    requires { Between from.now to.old n }
    ensures { Marked (lists_in f from.now n) to.old to.new }
{
    clear_uses(to);
    count_uses(from, to, n, f);
}
