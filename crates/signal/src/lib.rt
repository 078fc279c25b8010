// signal.rs: a boolean variable or its complement. Bit 0 is inversion, the rest the index; bit 31 marks an input.
#![tactic(auto)]

ghost use Rattle.std.specs.Prelude.{◌≡◌, not, ◌+◌, ◌-◌, ◌*◌, ◌/◌, ◌%◌, ◌≤◌, ◌<◌, get_or};
ghost use Rattle.model.specs.Signal.{is_inverted, flip, neg, without_inversion, from_bool, from_var, from_input, is_input, is_constant, is_var};
ghost use Rattle.signal.specs.Signals.{remapped};

use std::ops::{BitXor, Not};

#[derive(Clone, Copy, PartialEq, Eq, PartialOrd, Ord)]
pub struct Signal {
    pub a: u32,
}

#[tactic(auto, using(crate::proofs::Masks::masks))]
impl Signal {
    pub const ZERO: Signal = Signal { a: 0 };

    pub const ONE: Signal = Signal { a: 1 };

    pub fn zero() -> Signal
        ensures { result.a ≡ 0 }
    {
        Signal::ZERO
    }

    pub fn one() -> Signal
        ensures { result.a ≡ 1 }
    {
        Signal::ONE
    }

    // A node.
    pub fn from_var(v: u32) -> Signal
        requires { v < 1073741823 }
        ensures { result.a ≡ from_var v }
    {
        Signal::from_ind(v + 1)
    }

    // An input. They stand at the far end: input 0 has the greatest plain word.
    pub fn from_input(v: u32) -> Signal
        requires { v < 1073741824 }
        ensures { result.a ≡ from_input v }
    {
        Signal::from_ind(!v)
    }

    // A signal from an index, 0 being the constant. The index has 31 bits: its top bit is shifted out.
    pub fn from_ind(v: u32) -> Signal
        ensures { result.a ≡ 2 * v % 4294967296 }
    {
        Signal { a: v << 1 }
    }

    pub fn ind(self) -> u32
        ensures { result ≡ self.a / 2 }
    {
        self.a >> 1
    }

    pub fn is_constant(self) -> bool
        ensures { result ≡ is_constant self.a }
    {
        self.ind() == 0
    }

    pub fn is_input(self) -> bool
        ensures { result ≡ is_input self.a }
    {
        self.a & 0x8000_0000 != 0
    }

    #[tactic(auto, unfolding(model::specs::Signal::is_var))]
    pub fn is_var(self) -> bool
        ensures { result ≡ is_var self.a }
    {
        !self.is_input() & !self.is_constant()
    }

    pub fn is_inverted(self) -> bool
        ensures { result ≡ is_inverted self.a }
    {
        self.a & 1 != 0
    }

    // The node that a signal names.
    pub fn var(self) -> u32
        requires { 2 ≤ self.a }
        ensures { result ≡ self.a / 2 - 1 }
    {
        self.ind() - 1
    }

    // The input that a signal names.
    pub fn input(self) -> u32
        requires { 2147483648 ≤ self.a }
        ensures { result ≡ 2147483647 - self.a / 2 }
    {
        !self.ind() & !0x8000_0000
    }

    pub fn without_inversion(self) -> Signal
        ensures { result.a ≡ without_inversion self.a }
    {
        Signal { a: self.a & !1 }
    }

    // Through a translation of the nodes; constants and inputs stay. A node past the table goes to zero.
    pub fn remap_order(self, t: &[u32]) -> Signal
        ensures { result.a ≡ remapped t.now self.a }
    {
        if !self.is_var() {
            return self;
        }
        let word = t.get(self.var() as usize).copied().unwrap_or(0);
        Signal { a: word } ^ self.is_inverted()
    }
}

// The constant of a truth value.
impl From<bool> for Signal {
    ghost from_gives = { λ b s. s.a ≡ from_bool b };

    fn from(b: bool) -> Signal {
        Signal::ZERO ^ b
    }
}

#[tactic(auto, using(crate::proofs::Masks::masks))]
impl Not for Signal {
    type Output = Signal;

    ghost not_gives = { λ s r. r.a ≡ neg s.a };

    fn not(self) -> Signal {
        Signal { a: self.a ^ 1 }
    }
}

// Inverted by b.
#[tactic(auto, using(crate::proofs::Masks::masks))]
impl BitXor<bool> for Signal {
    type Output = Signal;

    ghost bitxor_gives = { λ s b r. r.a ≡ flip s.a b };

    fn bitxor(self, b: bool) -> Signal {
        Signal {
            a: self.a ^ b as u32,
        }
    }
}
