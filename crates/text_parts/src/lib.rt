// The least parts of a text: a lent buffer with the place behind the text in it, a byte put there, the mark of an inversion, and the number
// that a table is. What has no room is left out, and places go on all the same.
#![tactic(auto)]

ghost use Rattle.std.specs.Prelude.{◌≡◌, [], ◌∷◌, ◌+◌, ◌*◌, ◌^◌, ◌<◌, length};
ghost use Rattle.model.specs.Listing.{mark_text};

// A lent buffer, and the place behind the text in it. What `fits` says holds of any place and any buffer: it is there for the laws.
#[derive(Drop)]
pub struct Text<'a> {
    pub out: &'a mut [u8],
    pub at: usize,
    ghost fits: { (at < 2 ^ 64) × (length out.now < 2 ^ 64) },
}

impl Text<'_> {
    ghost use Rattle.text_parts.specs.Putting.{Wrote};

    // The greatest place stands for all beyond.
    pub fn put(&mut self, b: u8)
        ensures { Wrote self.old (b ∷ []) self.new }
    {
        let at = self.at;
        self.at = at.saturating_add(1);
        if at < self.out.len() {
            self.out[at] = b;
        }
    }

    // ! where it is inverted.
    pub fn put_mark(&mut self, inverted: bool)
        ensures { Wrote self.old (mark_text inverted) self.new }
    {
        if inverted {
            self.put(b'!');
        }
    }
}

// A table from its two words.
pub fn table(low: u32, high: u32) -> u64
    ensures { result ≡ low + 4294967296 * high }
{
    low as u64 + 0x1_0000_0000 * (high as u64)
}
