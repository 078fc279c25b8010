// A hand case's line: where its fields are, and the words of its image, in decimal, as the bytes of a record.
ghost use Rattle.std.specs.Prelude.{◌≤◌, ◌<◌, length, IfSome};

use crate::HEAD;
use words::put_word;

// A number with one digit more; as it is where c is none.
fn with_digit(n: u64, c: u8) -> u64
    requires { n < 4294967296 }
    ensures { result < 4294967296 }
{
    if c.is_ascii_digit() {
        (10 * n + (c - b'0') as u64) % 4294967296
    } else {
        n
    }
}

fn number(digits: &[u8]) -> u32 {
    let mut n: u64 = 0;
    for &c in digits {
        n = with_digit(n, c);
    }
    n as u32
}

// A word at `at`, where there is room; answers the place behind it.
pub fn put(dst: &mut [u8], at: usize, w: u32) -> usize
    requires { at ≤ length dst.old }
    ensures { (at ≤ result) × (result ≤ length dst.old) }
{
    if dst.len() - at < 4 {
        return at;
    }
    put_word(dst, at, w);
    at + 4
}

// The words of a text, a space before each, behind the head of a record; answers the place behind them.
pub fn put_image(dst: &mut [u8], text: &[u8]) -> usize
    requires { 64 ≤ length dst.old }
    ensures { (64 ≤ result) × (result ≤ length dst.old) }
{
    let mut at = HEAD;
    if let Some((_, words)) = text.split_first() {
        for word in words.split(|b| *b == b' ') {
            at = put(dst, at, number(word));
        }
    }
    at
}

// The place behind the last colon of the first n bytes; none where there is none.
pub fn behind_colon(line: &[u8], n: usize) -> Option<usize>
    requires { n ≤ length line.now }
    ensures { IfSome result (λ at. (0 < at) × (at ≤ n)) }
{
    for i in (0..n).rev() {
        if line[i] == b':' {
            return Some(i + 1);
        }
    }
    None
}
