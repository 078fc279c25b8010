// A record of docs/RECORDED.md as its bytes: the 16 words of its head and the parts of its data behind them.
#![tactic(auto)]

ghost use Rattle.std.specs.Prelude.{◌<◌, ◌≤◌, ◌≡◌, ◌++◌, length, IfSome};
ghost use Rattle.recorded.specs.Places.{field_place, part_place};

use crate::buffers::slice;
use crate::place::Place;
use words::nth;

pub mod buffers;
pub mod comparing;
pub mod hand;
pub mod heads;
pub mod place;
pub mod telling;

// The words of the head: what was lent, the number k or limit among it, ..
#[derive(Clone, Copy, PartialEq, Eq)]
pub enum Field {
    Image = 0,
    K = 1,
    Out = 2,
    Map = 3,
    First = 4,
    Second = 5,
    Inputs = 6,
    State = 7,
    Outputs = 8,
    // .. and what is expected.
    Number = 9,
    Length = 10,
    Start = 11,
    Result = 12,
    Mapping = 13,
    Output = 14,
    StateAfter = 15,
}

impl Place for Field {
    ghost at = { field_place };

    fn place(self) -> usize {
        self as usize
    }
}

// The bytes of the head.
pub const HEAD: usize = 64;

// The parts of the data.
#[derive(Clone, Copy, PartialEq, Eq)]
pub enum Part {
    Image = 0,
    Inputs = 1,
    StateBefore = 2,
    Result = 3,
    Mapping = 4,
    Output = 5,
    StateAfter = 6,
}

// In their order.
const PARTS: [Part; 7] = [
    Part::Image,
    Part::Inputs,
    Part::StateBefore,
    Part::Result,
    Part::Mapping,
    Part::Output,
    Part::StateAfter,
];

impl Place for Part {
    ghost at = { part_place };

    fn place(self) -> usize {
        self as usize
    }
}

// Field k, 0 past the end.
pub fn word(record: &[u8], k: usize) -> u32 {
    if k < record.len() / 4 {
        return nth(record, k);
    }
    0
}

// A word as a length, by its field or its place; 0 past the end.
pub fn size(record: &[u8], w: impl Place) -> usize
    ensures { result < 4294967296 }
{
    word(record, w.place()) as usize
}

// The word of the head that has a part's length.
fn length_word(part: Part) -> Field {
    match part {
        Part::Image => Field::Image,
        Part::Inputs => Field::Inputs,
        Part::StateBefore => Field::State,
        Part::Result => Field::Result,
        Part::Mapping => Field::Mapping,
        Part::Output => Field::Output,
        Part::StateAfter => Field::StateAfter,
    }
}

// A part's bytes: the mapping is counted in words.
fn part_len(record: &[u8], part: Part) -> usize
    ensures { result < 17179869184 }
{
    let n = size(record, length_word(part));
    if part == Part::Mapping { 4 * n } else { n }
}

fn padded(n: usize) -> usize
    requires { n < 17179869184 }
    ensures { result < 17179869188 }
{
    (n + 3) / 4 * 4
}

// Where so many parts end that follow the head, in bytes from the record's start.
fn end(record: &[u8], parts: &[Part]) -> usize
    requires { length parts.now ≤ 7 }
{
    let mut at = HEAD;
    for &part in parts {
        at += padded(part_len(record, part));
    }
    at
}

// A part of the data, by itself or by its place; from place 7 on what follows the parts, as long as the last. Empty where the record ends
// before it does.
pub fn data(record: &[u8], part: impl Place) -> &[u8] {
    let k = part.place().min(PARTS.len());
    let like = PARTS.get(k).copied().unwrap_or(Part::StateAfter);
    slice(record, end(record, &PARTS[..k]), part_len(record, like))
}

// What is lent at most.
fn is_in_bounds(record: &[u8]) -> bool {
    (size(record, Field::Out) <= 16500)
        & (size(record, Field::Map) <= 512)
        & (size(record, Field::Outputs) <= 64)
        & (size(record, Field::State) <= 512)
        & (size(record, Field::First) <= 16384)
        & (size(record, Field::Second) <= 16384)
}

// The record that a file's rest begins with, and what follows it; none where it is not whole or out of bounds.
pub fn first(rest: &[u8]) -> Option<(&[u8], &[u8])>
    ensures { IfSome result (λ p. p.0.now ++ p.1.now ≡ rest.now) }
{
    if is_in_bounds(rest) {
        rest.split_at_checked(end(rest, &PARTS))
    } else {
        None
    }
}

// The part that has the state afterwards: all of it where evaluation accepts, else as it was.
pub fn state_part(record: &[u8]) -> Part {
    if size(record, Field::StateAfter) == 0 {
        Part::StateBefore
    } else {
        Part::StateAfter
    }
}
