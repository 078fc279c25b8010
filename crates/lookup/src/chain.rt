// The new nodes in chains, one for each bucket that a gate can fall into.
ghost use Rattle.std.specs.Prelude.{◌≡◌, ◌+◌, ◌<◌, ◌≤◌, length};
ghost use Rattle.same_gate.specs.Listed.{list_base, listed};
ghost use Rattle.tables.specs.Layout.{cell};
ghost use Rattle.lookup.specs.Chains.{stir, stirred, bucket_of, joined, emptied};

use same_gate::{LIST, Sought};
use tables::scratch::{put_word, word};
use translation::clear_table;

// Each bucket's last node and each node's one before it, counted from 1, 0 for none.
// stays: in fixed memory a word of the lent area holds no Option.
pub const HEAD: usize = 5184;

pub const LINK: usize = 5440;

// One word more stirred into a number below 2 ^ 32.
fn stir(a: usize, x: u32) -> usize
    requires { a < 4294967296 }
    ensures { result ≡ stir a x }
{
    (a + x as usize) * 663608941 % 4294967296
}

// The kind with the n words of the list stirred in.
fn stir_inputs(to: &[u32], kind: u32, n: usize) -> usize
    requires { (16384 ≤ length to.now) × (n ≤ 2048) }
    ensures { result ≡ stirred kind (cell to.now list_base) n }
{
    let mut a = kind as usize;
    for j in 0..n {
        a = stir(a, word(to, LIST, j));
    }
    a
}

// The bucket of the gate that is sought.
pub fn bucket(to: &[u32], g: Sought) -> usize
    requires { (16384 ≤ length to.now) × (g.n ≤ 2048) }
    ensures { result ≡ bucket_of (listed to.now g) }
{
    let table = (g.low as usize + 4294967296 * g.high as usize) % 4294967291;
    stir(stir_inputs(to, g.kind, g.n), table as u32) / 16777216
}

// Node v before the chain of bucket h.
pub fn join(to: &mut [u32], v: usize, h: usize)
    requires { (16384 ≤ length to.old) × (v < 512) × (h < 256) }
    ensures { to.new ≡ joined to.old v h }
{
    let next = word(to, HEAD, h);
    put_word(to, LINK, v, next);
    put_word(to, HEAD, h, (v + 1) as u32);
}

pub fn empty_chains(to: &mut [u32])
    requires { 16384 ≤ length to.old }
    ensures { to.new ≡ emptied to.old 256 }
{
    clear_table(to, HEAD, 256);
}
