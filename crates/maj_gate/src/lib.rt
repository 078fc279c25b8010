// gates.rs: the Maj.
#![tactic(auto)]

ghost use Rattle.std.specs.Prelude.{◌≡◌, ◌≤◌, length};
ghost use Rattle.model.specs.Normal.{make_maj};
ghost use Rattle.gates.specs.Normals.{normal_of};

use gates::binary::make_and;
use gates::order::sort_3;
use gates::{Normalization, made};
use kinds::Kind;
use signal::Signal;

// Normalize a Maj. The least signal's inversion falls at the call: the order does not change, since signals that differ by
// their sign alone were met before.
#[tactic(auto, unfolding(gates::specs::Normals::normal_of, model::specs::Normal::make_maj, model::specs::Normal::maj_sorted, model::specs::Normal::maj_plain, model::specs::Normal::made3))]
pub fn make_maj(a: Signal, b: Signal, c: Signal, inv: bool, list: &mut [u32]) -> Normalization
    requires { 3 ≤ length list.old }
    ensures { normal_of result list.new ≡ make_maj a.a b.a c.a inv }
{
    let (i0, i1, i2) = sort_3(a, b, c);
    if (i0 == !i1) | (i1 == i2) {
        return Normalization::Copy(i2 ^ inv);
    }
    if (i1 == !i2) | (i0 == i1) {
        return Normalization::Copy(i0 ^ inv);
    }
    if i0.is_inverted() {
        return make_maj(!i0, !i1, !i2, !inv, list);
    }
    if i0 == Signal::ZERO {
        return make_and(i1, i2, inv, list);
    }
    made(Kind::Maj, [i0, i1, i2], inv, list)
}
