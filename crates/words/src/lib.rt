// Little-endian words of a byte slice, at any byte.
#![tactic(auto)]

ghost use Rattle.std.specs.Prelude.{◌≡◌, ◌+◌, ◌/◌, ◌≤◌, ◌<◌, length, get_or};
ghost use Rattle.model.specs.Image.{word_at, words};
ghost use Rattle.words.specs.Stores.{put_word};

// The word whose first byte is at `at`.
pub fn word_at(img: &[u8], at: usize) -> u32
    requires { at + 4 ≤ length img.now }
    ensures { result ≡ word_at img.now at }
{
    u32::from_le_bytes([img[at], img[at + 1], img[at + 2], img[at + 3]])
}

// Stores a word at `at`.
pub fn put_word(dst: &mut [u8], at: usize, w: u32)
    requires { at + 4 ≤ length dst.old }
    ensures { dst.new ≡ put_word dst.old at w }
{
    dst[at..at + 4].copy_from_slice(&w.to_le_bytes());
}

// The word of number `i`, counted from the front.
pub fn nth(b: &[u8], i: usize) -> u32
    requires { i < length b.now / 4 }
    ensures { result ≡ get_or (words b.now) i 0 }
{
    word_at(b, 4 * i)
}
