// What is lent to an entry: filled with a pattern before, and compared afterwards with what is recorded and the pattern behind it.
use words::nth;

// The pattern.
pub const BYTE: u8 = 0xA5;

pub const WORD: u32 = 0xA5A5_A5A5;

// Puts src to the front; nothing where it has no room.
pub fn put(src: &[u8], dst: &mut [u8]) {
    if src.len() <= dst.len() {
        dst[..src.len()].copy_from_slice(src);
    }
}

// The n bytes from `from` on; none where buf ends before.
pub fn slice(buf: &[u8], from: usize, n: usize) -> &[u8] {
    buf.get(from..)
        .and_then(|rest| rest.get(..n))
        .unwrap_or(&[])
}

// Whether buf begins with want and has the pattern behind it.
pub fn holds(buf: &[u8], want: &[u8]) -> bool {
    buf.strip_prefix(want)
        .is_some_and(|behind| behind.iter().all(|b| *b == BYTE))
}

// The same of words, whose bytes want has.
pub fn holds_words(buf: &[u32], want: &[u8]) -> bool {
    buf.split_at_checked(want.len() / 4).is_some_and(|(front, behind)| {
        (0..front.len()).all(|i| front[i] == nth(want, i)) && behind.iter().all(|w| *w == WORD)
    })
}

// Whether an area of which n words were lent is as an entry leaves it that answers this number: those as they were for 1, else zero;
// and the pattern behind.
pub fn is_left(area: &[u32], n: usize, number: u32) -> bool {
    let left = if number == 1 { WORD } else { 0 };
    area.iter()
        .enumerate()
        .all(|(i, w)| *w == if i < n { left } else { WORD })
}
