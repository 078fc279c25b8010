// gates.rs: the gates of three inputs that need no turning, And3, Xor3 and Dff.
#![tactic(auto)]

ghost use Rattle.std.specs.Prelude.{◌≡◌, ◌≤◌, length};
ghost use Rattle.model.specs.Normal.{make_and3, make_xor3, make_dff};
ghost use Rattle.gates.specs.Normals.{normal_of};

use gates::binary::{make_and, make_xor};
use gates::order::sort_3;
use gates::{Normalization, made};
use kinds::Kind;
use signal::Signal;

// Normalize an And3.
#[tactic(auto, unfolding(gates::specs::Normals::normal_of, model::specs::Normal::make_and3, model::specs::Normal::and3_sorted, model::specs::Normal::made3))]
pub fn make_and3(a: Signal, b: Signal, c: Signal, inv: bool, list: &mut [u32]) -> Normalization
    requires { 3 ≤ length list.old }
    ensures { normal_of result list.new ≡ make_and3 a.a b.a c.a inv }
{
    let (i0, i1, i2) = sort_3(a, b, c);
    if (i0 == Signal::ZERO) | (i0 == !i1) | (i2 == !i1) {
        return Normalization::Copy(Signal::from(inv));
    }
    if (i0 == Signal::ONE) | (i0 == i1) {
        return make_and(i1, i2, inv, list);
    }
    if i1 == i2 {
        return make_and(i0, i1, inv, list);
    }
    made(Kind::And3, [i0, i1, i2], inv, list)
}

// Normalize a Xor3.
#[tactic(auto, unfolding(gates::specs::Normals::normal_of, model::specs::Normal::make_xor3, model::specs::Normal::xor3_sorted, model::specs::Normal::made3))]
pub fn make_xor3(a: Signal, b: Signal, c: Signal, inv: bool, list: &mut [u32]) -> Normalization
    requires { 3 ≤ length list.old }
    ensures { normal_of result list.new ≡ make_xor3 a.a b.a c.a inv }
{
    let new_inv = a.is_inverted() ^ b.is_inverted() ^ c.is_inverted() ^ inv;
    let (i0, i1, i2) = sort_3(
        a.without_inversion(),
        b.without_inversion(),
        c.without_inversion(),
    );
    if i0 == Signal::ZERO {
        return make_xor(i1, i2, new_inv, list);
    }
    if i0 == i1 {
        return Normalization::Copy(i2 ^ new_inv);
    }
    if i1 == i2 {
        return Normalization::Copy(i0 ^ new_inv);
    }
    made(Kind::Xor3, [i0, i1, i2], new_inv, list)
}

// Normalize a Dff.
#[tactic(auto, unfolding(gates::specs::Normals::normal_of, model::specs::Normal::make_dff, model::specs::Normal::made3))]
pub fn make_dff(d: Signal, en: Signal, res: Signal, inv: bool, list: &mut [u32]) -> Normalization
    requires { 3 ≤ length list.old }
    ensures { normal_of result list.new ≡ make_dff d.a en.a res.a inv }
{
    if (d == Signal::ZERO) | (en == Signal::ZERO) | (res == Signal::ONE) {
        return Normalization::Copy(Signal::from(inv));
    }
    made(Kind::Dff, [d, en, res], inv, list)
}
