// gates.rs, the whole gate: make_canonical and is_canonical, by kind.
#![tactic(auto)]

ghost use Rattle.std.specs.Prelude.{◌≡◌, map, take};
ghost use Rattle.model.specs.Signal.{neg};
ghost use Rattle.model.specs.Normal.{gate_of, make_and_n, make_canonical, proper, mux_canonical, dff_canonical, is_canonical};
ghost use Rattle.gates.specs.Normals.{normal_of, Listed, Shaped};

use gates::Normalization;
use gates::binary::{make_and, make_xor};
use kinds::Kind;
use lists::{invert, no_inv_n, sorted_n};
use maj_gate::make_maj;
use mux_gate::make_mux;
use nary_gates::{make_andn, make_xorn};
use signal::Signal;
use ternary_gates::{make_and3, make_dff, make_xor3};

// An And of the inverses: what an Or and a Nor come to.
#[tactic(auto, using(crate::proofs::Shapes::inverses))]
fn make_and_inverted(list: &mut [u32], n: usize, inv: bool) -> Normalization
    requires { Listed list.old n }
    ensures { normal_of result list.new ≡ make_and_n (map neg (take n list.old)) inv }
{
    invert(&mut list[..n]);
    make_andn(list, n, inv)
}

// The normal form of a gate whose n inputs stand at the front of the list. A Lut's table stays with the caller.
// stays: n beside the list, which is lent with room for three
#[tactic(auto, using(crate::proofs::Shapes::shapes), unfolding(gates::specs::Normals::normal_of, model::specs::Normal::make_canonical, model::specs::Normal::normal_k, kinds::specs::Kinds::kind_of))]
pub fn make_canonical(kind: Kind, list: &mut [u32], n: usize) -> Normalization
    requires { Shaped kind list.old n }
    ensures { normal_of result list.new ≡ make_canonical (gate_of kind (take n list.old)) }
{
    let a = Signal { a: list[0] };
    let b = Signal { a: list[1] };
    let c = Signal { a: list[2] };
    match kind {
        Kind::And2 => make_and(a, b, false, list),
        Kind::Xor2 => make_xor(a, b, false, list),
        Kind::And3 => make_and3(a, b, c, false, list),
        Kind::Xor3 => make_xor3(a, b, c, false, list),
        Kind::Maj => make_maj(a, b, c, false, list),
        Kind::Mux => make_mux(a, b, c, false, list),
        Kind::AndN => make_andn(list, n, false),
        Kind::OrN => make_and_inverted(list, n, true),
        Kind::NandN => make_andn(list, n, true),
        Kind::NorN => make_and_inverted(list, n, false),
        Kind::XorN => make_xorn(list, n, false),
        Kind::XnorN => make_xorn(list, n, true),
        Kind::Buf => Normalization::Copy(a),
        Kind::Dff => make_dff(a, b, c, false, list),
        Kind::Lut => Normalization::Node {
            kind: Kind::Lut,
            count: n,
            inv: false,
        },
    }
}

// Whether signals rise in index and the first is no constant.
#[tactic(auto, using(crate::proofs::Shapes::propers))]
fn proper(list: &[u32]) -> bool
    ensures { result ≡ proper list.now }
{
    if list.is_empty() {
        return false;
    }
    let first = Signal { a: list[0] };
    sorted_n(list) & !first.is_constant()
}

#[tactic(auto, unfolding(model::specs::Normal::mux_canonical))]
fn mux_canonical(s: Signal, a: Signal, b: Signal) -> bool
    ensures { result ≡ mux_canonical s.a a.a b.a }
{
    let si = s.ind();
    let ai = a.ind();
    let bi = b.ind();
    (si != ai)
        & (si != bi)
        & (ai != bi)
        & !s.is_inverted()
        & !b.is_inverted()
        & !a.is_constant()
        & !b.is_constant()
        & !s.is_constant()
}

#[tactic(auto, unfolding(model::specs::Normal::dff_canonical))]
fn dff_canonical(d: Signal, en: Signal, res: Signal) -> bool
    ensures { result ≡ dff_canonical d.a en.a res.a }
{
    (en != Signal::ZERO) & (d != Signal::ZERO) & (res != Signal::ONE)
}

// Whether a gate is in canonical form.
#[tactic(auto, using(crate::proofs::Shapes::shapes), unfolding(model::specs::Normal::is_canonical, model::specs::Normal::canonical_k, kinds::specs::Kinds::kind_of))]
pub fn is_canonical(kind: Kind, list: &[u32], n: usize) -> bool
    requires { Shaped kind list.now n }
    ensures { result ≡ is_canonical (gate_of kind (take n list.now)) }
{
    let a = Signal { a: list[0] };
    let b = Signal { a: list[1] };
    let c = Signal { a: list[2] };
    let ins = &list[..n];
    match kind {
        Kind::And2 | Kind::And3 => proper(ins),
        Kind::Xor2 | Kind::Xor3 => proper(ins) & no_inv_n(ins),
        Kind::Maj => proper(ins) & !a.is_inverted(),
        Kind::Mux => mux_canonical(a, b, c),
        Kind::AndN => proper(ins) & (3 < n),
        Kind::XorN => proper(ins) & (3 < n) & no_inv_n(ins),
        Kind::OrN | Kind::NandN | Kind::NorN | Kind::XnorN | Kind::Buf => false,
        Kind::Dff => dff_canonical(a, b, c),
        Kind::Lut => true,
    }
}
