// gates.rs: the gates of any number of inputs: n signals at the front of the list.
#![tactic(auto)]

ghost use Rattle.std.specs.Prelude.{◌≡◌, map, take};
ghost use Rattle.model.specs.Signal.{without_inversion};
ghost use Rattle.model.specs.Normal.{and_wide, make_and_n, xor_some, make_xor_n, without, sorted, uniq, cancel};
ghost use Rattle.neighbours.specs.Fronts.{Front};
ghost use Rattle.gates.specs.Normals.{normal_of, Listed};

use gates::Normalization;
use gates::binary::{make_and, make_xor};
use kinds::Kind;
use lists::{opposed, polarity, retain, sort, strip};
use neighbours::{cancel, dedup};
use signal::Signal;
use ternary_gates::{make_and3, make_xor3};

// An And of n signals in order, none of which is repeated or opposed.
// stays: xor_some differs at each return, in a constant or in what it calls, and one function would ask for the family at each
#[tactic(auto, using(crate::proofs::Wide::wides))]
fn and_wide(list: &mut [u32], n: usize, inv: bool) -> Normalization
    requires { Listed list.old n }
    ensures { normal_of result list.new ≡ and_wide (take n list.old) inv }
{
    if n == 0 {
        return Normalization::Copy(Signal::ONE ^ inv);
    }
    let i0 = Signal { a: list[0] };
    if i0 == Signal::ZERO {
        return Normalization::Copy(Signal::from(inv));
    }
    if n == 1 {
        return Normalization::Copy(i0 ^ inv);
    }
    let i1 = Signal { a: list[1] };
    if n == 2 {
        return make_and(i0, i1, inv, list);
    }
    let i2 = Signal { a: list[2] };
    if n == 3 {
        return make_and3(i0, i1, i2, inv, list);
    }
    Normalization::Node {
        kind: Kind::AndN,
        count: n,
        inv,
    }
}

// In order, none repeated and none of them one: what an And takes.
#[tactic(auto, using(crate::proofs::Wide::fronts))]
fn tidy_and(list: &mut [u32]) -> usize
    ensures { Front (uniq (sorted (without 1 list.old))) list.new result }
{
    let kept = retain(list, 1);
    let front = &mut list[..kept];
    sort(front);
    dedup(front)
}

// Normalize a n-ary And.
// stays: n beside the list, which is lent with room for three and has the gate at its front
#[tactic(auto, using(crate::proofs::Wide::andns))]
pub fn make_andn(list: &mut [u32], n: usize, inv: bool) -> Normalization
    requires { Listed list.old n }
    ensures { normal_of result list.new ≡ make_and_n (take n list.old) inv }
{
    let left = tidy_and(&mut list[..n]);
    if opposed(&list[..left]) {
        return Normalization::Copy(Signal::from(inv));
    }
    and_wide(list, left, inv)
}

// A Xor of n plain signals in order, none of which is repeated.
#[tactic(auto, using(crate::proofs::Wide::odds))]
fn xor_some(list: &mut [u32], n: usize, inv: bool) -> Normalization
    requires { Listed list.old n }
    ensures { normal_of result list.new ≡ xor_some (take n list.old) inv }
{
    if n == 0 {
        return Normalization::Copy(Signal::from(inv));
    }
    let i0 = Signal { a: list[0] };
    if n == 1 {
        return Normalization::Copy(i0 ^ inv);
    }
    let i1 = Signal { a: list[1] };
    if n == 2 {
        return make_xor(i0, i1, inv, list);
    }
    let i2 = Signal { a: list[2] };
    if n == 3 {
        return make_xor3(i0, i1, i2, inv, list);
    }
    Normalization::Node {
        kind: Kind::XorN,
        count: n,
        inv,
    }
}

// Plain, in order, none of them zero, and equal ones gone in pairs: what a Xor takes.
#[tactic(auto, using(crate::proofs::Wide::fronts))]
fn tidy_xor(list: &mut [u32]) -> usize
    ensures { Front (cancel (sorted (without 0 (map without_inversion list.old)))) list.new result }
{
    strip(list);
    let kept = retain(list, 0);
    let front = &mut list[..kept];
    sort(front);
    cancel(front)
}

// Normalize a n-ary Xor.
// stays: n beside the list, as for And
#[tactic(auto, using(crate::proofs::Wide::xorns))]
pub fn make_xorn(list: &mut [u32], n: usize, inv: bool) -> Normalization
    requires { Listed list.old n }
    ensures { normal_of result list.new ≡ make_xor_n (take n list.old) inv }
{
    let front = &mut list[..n];
    let pol = polarity(front) ^ inv;
    let left = tidy_xor(front);
    xor_some(list, left, pol)
}
