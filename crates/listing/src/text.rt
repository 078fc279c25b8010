// Numbers, signals and kinds as text, put behind what stands in a lent buffer.
ghost use Rattle.std.specs.Prelude.{◌≡◌, ◌∷◌, ◌+◌, ◌<◌};
ghost use Rattle.model.specs.Listing.{decimal, signal_text, kind_text};
ghost use Rattle.text_parts.specs.Putting.{Wrote};

use kinds::Kind;
use signal::Signal;
use text_parts::Text;

pub fn put_all(to: &mut Text, text: &[u8])
    ensures { Wrote to.old text.now to.new }
{
    for &b in text {
        to.put(b);
    }
}

fn digit(n: u64) -> u8
    requires { n < 10 }
    ensures { result ≡ 48 + n }
{
    48 + n as u8
}

// A number in decimal.
pub fn put_number(to: &mut Text, n: u64)
    ensures { Wrote to.old (decimal n) to.new }
{
    if n < 10 {
        to.put(digit(n));
    } else {
        put_number(to, n / 10);
        to.put(digit(n % 10));
    }
}

// A letter and a number: x0, i3, o1.
pub fn put_name(to: &mut Text, letter: u8, n: u64)
    ensures { Wrote to.old (letter ∷ decimal n) to.new }
{
    to.put(letter);
    put_number(to, n);
}

// 0, 1, x3 or i2, and ! before where it is inverted.
pub fn put_signal(to: &mut Text, s: Signal)
    ensures { Wrote to.old (signal_text s.a) to.new }
{
    if s.is_constant() {
        put_number(to, s.a as u64);
        return;
    }
    to.put_mark(s.is_inverted());
    if s.is_input() {
        put_name(to, b'i', s.input() as u64);
    } else {
        put_name(to, b'x', s.var() as u64);
    }
}

fn name(kind: Kind) -> &'static [u8]
    ensures { result.now ≡ kind_text kind }
{
    match kind {
        Kind::And2 => b"And2",
        Kind::Xor2 => b"Xor2",
        Kind::And3 => b"And3",
        Kind::Xor3 => b"Xor3",
        Kind::Maj => b"Maj",
        Kind::Mux => b"Mux",
        Kind::AndN => b"AndN",
        Kind::OrN => b"OrN",
        Kind::NandN => b"NandN",
        Kind::NorN => b"NorN",
        Kind::XorN => b"XorN",
        Kind::XnorN => b"XnorN",
        Kind::Buf => b"Buf",
        Kind::Dff => b"Dff",
        Kind::Lut => b"Lut",
    }
}

pub fn put_kind(to: &mut Text, kind: Kind)
    ensures { Wrote to.old (kind_text kind) to.new }
{
    put_all(to, name(kind));
}
