// One pass over the records of a body: their layout.
#![tactic(auto)]

ghost use Rattle.std.specs.Prelude.{◌≡◌, ◌+◌, ◌*◌, ◌/◌, ◌≤◌, length};
ghost use Rattle.model.specs.Gate.{fits_kind, fits_code, fits_table};
ghost use Rattle.model.specs.Image.{words, header_ok, end_from};
ghost use Rattle.records.specs.Layouts.{size_of, fit_at, laid_from};

use kinds::Kind;

// Whether a kind has n inputs.
pub fn fits_kind(k: Kind, n: u32) -> bool
    ensures { result ≡ fits_kind k n }
{
    match k {
        Kind::Buf => n == 1,
        Kind::And2 | Kind::Xor2 => n == 2,
        Kind::And3 | Kind::Xor3 | Kind::Maj | Kind::Mux | Kind::Dff => n == 3,
        Kind::Lut => n <= 6,
        Kind::AndN | Kind::OrN | Kind::NandN | Kind::NorN | Kind::XorN | Kind::XnorN => true,
    }
}

// stays: `kind_of` is total, so the bound is asked here; a TryFrom would serve this place alone.
#[tactic(auto, using(crate::proofs::Fits::code_fits))]
fn fits_code(code: u32, n: u32) -> bool
    ensures { result ≡ fits_code code n }
{
    (code < 15) & fits_kind(kinds::kind_of(code), n)
}

// A header: code + 256 x input count, its top 8 bits zero.
#[tactic(auto, using(crate::proofs::Fits::header_fits))]
fn header_ok(h: u32) -> bool
    ensures { result ≡ header_ok h }
{
    (h < 0x100_0000) & fits_code(h % 256, h / 256)
}

// A Lut's table in two words: bits 2^n and above zero.
fn table_ok(n: u32, lo: u32, hi: u32) -> bool
    requires { n ≤ 6 }
    ensures { result ≡ fits_table 14 n (lo + hi * 4294967296) }
{
    if n == 6 {
        return true;
    }
    if hi != 0 {
        return false;
    }
    match n {
        0 => lo < 2,
        1 => lo < 4,
        2 => lo < 16,
        3 => lo < 256,
        4 => lo < 65536,
        _ => true,
    }
}

// The words of a record with the header h.
pub fn size_of(h: u32) -> usize
    ensures { result ≡ size_of h }
{
    let n = (h / 256) as usize;
    if h % 256 == Kind::Lut as u32 {
        n + 3
    } else {
        n + 1
    }
}

// The words of the record at `at`, if it is sound and ends at `lim` or before.
fn fit_at(body: &[u8], at: usize, lim: usize) -> Option<usize>
    requires { lim ≤ length body.now / 4 }
    ensures { result ≡ fit_at (words body.now) at lim }
{
    if lim <= at {
        return None;
    }
    let h = words::nth(body, at);
    if !header_ok(h) {
        return None;
    }
    let n = (h / 256) as usize;
    if h % 256 != Kind::Lut as u32 {
        if lim - at <= n {
            return None;
        }
        return Some(n + 1);
    }
    if lim - at <= n + 2 {
        return None;
    }
    let lo = words::nth(body, at + 1 + n);
    let hi = words::nth(body, at + 2 + n);
    if table_ok(h / 256, lo, hi) {
        return Some(n + 3);
    }
    None
}

// The gate inputs of `nodes` records from the front of the body, if each is sound and they end at the word `lim`.
// stays: `lim` is no length of the body: every other walk reads it whole, by the same places, and a cut part would be one more buffer.
#[tactic(auto, using(crate::proofs::Layouts::layouts))]
pub fn layout(body: &[u8], nodes: u32, lim: usize) -> Option<usize>
    requires { lim ≤ length body.now / 4 }
    ensures { result ≡ laid_from nodes (words body.now) 0 0 lim }
{
    let mut at: usize = 0;
    let mut ins: usize = 0;
    for _v in 0..nodes {
        let size = fit_at(body, at, lim)?;
        ins += (words::nth(body, at) / 256) as usize;
        at += size;
    }
    if at == lim { Some(ins) } else { None }
}

// The word where record k begins.
#[tactic(auto, using(crate::proofs::Layouts::walks))]
pub fn skip(body: &[u8], k: u32) -> usize
    requires { end_from k (words body.now) 0 ≤ length body.now / 4 }
    ensures { result ≡ end_from k (words body.now) 0 }
{
    let mut at: usize = 0;
    for _v in 0..k {
        at += size_of(words::nth(body, at));
    }
    at
}
