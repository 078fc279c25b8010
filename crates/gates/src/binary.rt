// The gates of two inputs.
ghost use Rattle.std.specs.Prelude.{◌≡◌, ◌≤◌, length};
ghost use Rattle.model.specs.Normal.{make_and, make_xor};
ghost use Rattle.gates.specs.Normals.{normal_of};

use crate::order::sort_2;
use crate::{Normalization, made};
use kinds::Kind;
use signal::Signal;

// Normalize an And.
#[tactic(auto, unfolding(crate::specs::Normals::normal_of, model::specs::Normal::make_and, model::specs::Normal::and_sorted, model::specs::Normal::made2))]
pub fn make_and(a: Signal, b: Signal, inv: bool, list: &mut [u32]) -> Normalization
    requires { 3 ≤ length list.old }
    ensures { normal_of result list.new ≡ make_and a.a b.a inv }
{
    let (i0, i1) = sort_2(a, b);
    if (i0 == Signal::ZERO) | (i0 == !i1) {
        return Normalization::Copy(Signal::from(inv));
    }
    if (i0 == Signal::ONE) | (i0 == i1) {
        return Normalization::Copy(i1 ^ inv);
    }
    made(Kind::And2, [i0, i1], inv, list)
}

// Normalize a Xor.
#[tactic(auto, unfolding(crate::specs::Normals::normal_of, model::specs::Normal::make_xor, model::specs::Normal::xor_sorted, model::specs::Normal::made2))]
pub fn make_xor(a: Signal, b: Signal, inv: bool, list: &mut [u32]) -> Normalization
    requires { 3 ≤ length list.old }
    ensures { normal_of result list.new ≡ make_xor a.a b.a inv }
{
    let new_inv = a.is_inverted() ^ b.is_inverted() ^ inv;
    let (i0, i1) = sort_2(a.without_inversion(), b.without_inversion());
    if i0 == Signal::ZERO {
        return Normalization::Copy(i1 ^ new_inv);
    }
    if i0 == i1 {
        return Normalization::Copy(Signal::from(new_inv));
    }
    made(Kind::Xor2, [i0, i1], new_inv, list)
}
