// Where a factoring pass keeps its words: the only functions that know the places.
ghost use Rattle.std.specs.Prelude.{◌≡◌, ◌<◌, ◌≤◌, length};
ghost use Rattle.model.specs.Signal.{from_var};
ghost use Rattle.pairs.specs.Lists.{area_size, sig_at, start_at, left_at, used_at, put_sig, put_start, put_left, put_used, zeroed, pair_at, put_pair};

use signal::Signal;
use tables::scratch::{number, put_word, word};

// A word for each signal that a network can name, here and in the room behind it a table of pairs may stand.
const USED: usize = 0;

// The signals of the gates' lists.
const SIG: usize = 12288;

// For each gate of the pass, where its list starts and how many signals are left in it; for each new node, its pair.
const START: usize = 14336;

const LEFT: usize = 14848;

// stays: each accessor is the one call of the generic `word`, `number` or `put_word` with its place; a const parameter would only move the place to the callers.
pub fn sig_at(area: &[u32], k: usize) -> u32
    requires { (k < 2048) × (area_size ≤ length area.now) }
    ensures { result ≡ sig_at area.now k }
{
    word(area, SIG, k)
}

pub fn start_at(area: &[u32], i: usize) -> usize
    requires { (i < 512) × (area_size ≤ length area.now) }
    ensures { result ≡ start_at area.now i }
{
    number(area, START, i)
}

pub fn left_at(area: &[u32], i: usize) -> usize
    requires { (i < 512) × (area_size ≤ length area.now) }
    ensures { result ≡ left_at area.now i }
{
    number(area, LEFT, i)
}

pub fn used_at(area: &[u32], u: usize) -> u32
    requires { (u < 4096) × (area_size ≤ length area.now) }
    ensures { result ≡ used_at area.now u }
{
    word(area, USED, u)
}

pub fn put_sig(area: &mut [u32], k: usize, s: u32)
    requires { (k < 2048) × (area_size ≤ length area.old) }
    ensures { area.new ≡ put_sig area.old k s }
{
    put_word(area, SIG, k, s);
}

pub fn put_start(area: &mut [u32], i: usize, f: u32)
    requires { (i < 512) × (area_size ≤ length area.old) }
    ensures { area.new ≡ put_start area.old i f }
{
    put_word(area, START, i, f);
}

pub fn put_left(area: &mut [u32], i: usize, n: u32)
    requires { (i < 512) × (area_size ≤ length area.old) }
    ensures { area.new ≡ put_left area.old i n }
{
    put_word(area, LEFT, i, n);
}

pub fn put_used(area: &mut [u32], u: usize, x: u32)
    requires { (u < 4096) × (area_size ≤ length area.old) }
    ensures { area.new ≡ put_used area.old u x }
{
    put_word(area, USED, u, x);
}

// The first n words of the table of uses zero.
pub fn clear_used(area: &mut [u32], n: usize)
    requires { (n ≤ 4096) × (area_size ≤ length area.old) }
    ensures { area.new ≡ zeroed area.old n }
{
    area[USED..USED + n].fill(0);
}

// The pair of new node v.
pub fn put_pair(area: &mut [u32], v: usize, a: u32, b: u32)
    requires { (v < 512) × (area_size ≤ length area.old) }
    ensures { area.new ≡ put_pair area.old v a b }
{
    put_start(area, v, a);
    put_left(area, v, b);
}

// The two signals of new node v.
pub fn pair_first(area: &[u32], v: usize) -> u32
    requires { (v < 512) × (area_size ≤ length area.now) }
    ensures { result ≡ (pair_at area.now v).fst }
{
    word(area, START, v)
}

pub fn pair_second(area: &[u32], v: usize) -> u32
    requires { (v < 512) × (area_size ≤ length area.now) }
    ensures { result ≡ (pair_at area.now v).snd }
{
    word(area, LEFT, v)
}

// The word of node v.
pub fn node_word(v: usize) -> u32
    requires { v < 512 }
    ensures { result ≡ from_var v }
{
    let s = Signal::from_var(v as u32);
    s.a
}
