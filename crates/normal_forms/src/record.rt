// A record of an image: a header with the code and the count of inputs, the inputs, and a Lut's two table words.
ghost use Rattle.std.specs.Prelude.{◌≤◌, ◌<◌, length, IfSome};
ghost use Rattle.gates.specs.Normals.{Shaped};

use kinds::{Kind, kind_of};
use records::{fits_kind, size_of};
use text_parts::table;
use words::nth;

// A gate as it was read, with a Lut's table and how many bytes the record has.
#[derive(Clone, Copy)]
pub struct Record {
    pub kind: Kind,
    pub count: usize,
    pub table: u64,
    pub size: usize,
}

// Word k, zero past the end.
fn word(img: &[u8], k: usize) -> u32 {
    if k < img.len() / 4 {
        return nth(img, k);
    }
    0
}

// The bytes of a record with the header h, where there are so many.
// stays: a code above 14 is none, and `kind_of` would name it a Lut.
#[tactic(auto, unfolding(records::specs::Layouts::size_of, model::specs::Image::extra))]
fn size(img: &[u8], h: u32) -> Option<usize>
    ensures { IfSome result (λ n. (0 < n) × (n ≤ length img.now) × (h < 16777216)) }
{
    if (14 < h % 256) | (0xFF_FFFF < h) {
        return None;
    }
    let size = 4 * size_of(h);
    if img.len() < size {
        return None;
    }
    Some(size)
}

// The record at the start of img, its inputs put to the front of the list; None where no record starts there.
pub fn read(img: &[u8], list: &mut [u32]) -> Option<Record>
    ensures { IfSome result (λ r. (0 < r.size) × (r.size ≤ length img.now) × Shaped r.kind list.new r.count) }
{
    let h = word(img, 0);
    let size = size(img, h)?;
    let kind = kind_of(h % 256);
    let count = (h / 256) as usize;
    if list.len() < 3 || list.len() < count || !fits_kind(kind, h / 256) {
        return None;
    }
    copy_inputs(img, &mut list[..count]);
    Some(Record {
        kind,
        count,
        table: table(word(img, count + 1), word(img, count + 2)),
        size,
    })
}

fn copy_inputs(img: &[u8], ins: &mut [u32]) {
    for (i, w) in ins.iter_mut().enumerate() {
        *w = word(img, i + 1);
    }
}
