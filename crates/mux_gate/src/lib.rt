// gates.rs: the Mux.
#![tactic(auto)]

ghost use Rattle.std.specs.Prelude.{◌≡◌, ◌≤◌, length};
ghost use Rattle.model.specs.Normal.{make_mux, mux_plain};
ghost use Rattle.gates.specs.Normals.{normal_of};

use gates::binary::{make_and, make_xor};
use gates::{Normalization, made};
use kinds::Kind;
use signal::Signal;

// A Mux whose select and last input are not inverted.
#[tactic(auto, unfolding(gates::specs::Normals::normal_of, model::specs::Normal::mux_plain, model::specs::Normal::made3))]
fn mux_plain(s: Signal, a: Signal, b: Signal, inv: bool, list: &mut [u32]) -> Normalization
    requires { 3 ≤ length list.old }
    ensures { normal_of result list.new ≡ mux_plain s.a a.a b.a inv }
{
    if (s == Signal::ZERO) | (a == b) {
        return Normalization::Copy(b ^ inv);
    }
    if (s == a) | (a == Signal::ONE) {
        // s ? 1 : b is s | b, which is !(!s & !b)
        return make_and(!s, !b, !inv, list);
    }
    if (s == !a) | (a == Signal::ZERO) {
        // s ? 0 : b is !s & b
        return make_and(!s, b, inv, list);
    }
    if (s == b) | (b == Signal::ZERO) {
        // s ? a : 0 is s & a
        return make_and(s, a, inv, list);
    }
    if (s == !b) | (b == Signal::ONE) {
        // s ? a : 1 is !s | a, which is !(s & !a)
        return make_and(s, !a, !inv, list);
    }
    if a == !b {
        // s ? !b : b is s ^ b
        return make_xor(s, b, inv, list);
    }
    made(Kind::Mux, [s, a, b], inv, list)
}

// Normalize a Mux. Inversions left, of the select before the last input, fall at each call.
#[tactic(auto, using(crate::proofs::Turns::mux_turns))]
pub fn make_mux(s: Signal, a: Signal, b: Signal, inv: bool, list: &mut [u32]) -> Normalization
    requires { 3 ≤ length list.old }
    ensures { normal_of result list.new ≡ make_mux s.a a.a b.a inv }
{
    if s.is_inverted() {
        return make_mux(!s, b, a, inv, list);
    }
    if b.is_inverted() {
        return make_mux(s, !a, !b, !inv, list);
    }
    mux_plain(s, a, b, inv, list)
}
