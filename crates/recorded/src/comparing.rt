// What an entry left, beside what is recorded: each comparison that does not hold is named on a writer.
ghost use Rattle.std.specs.Prelude.{◌≡◌, IfOk};
ghost use Rattle.recorded.specs.Places.{what_place};

use crate::buffers::{holds, holds_words, is_left};
use crate::place::Place;
use crate::telling::print;
use crate::{Field, Part, data, size, word};
use std::io;
use std::io::Write;

// What is compared.
#[derive(Clone, Copy)]
pub enum What {
    Number,
    Length,
    Start,
    Result,
    Mapping,
    State,
    First,
    Second,
}

// In their order.
const WHATS: [What; 8] = [
    What::Number,
    What::Length,
    What::Start,
    What::Result,
    What::Mapping,
    What::State,
    What::First,
    What::Second,
];

impl Place for What {
    ghost at = { what_place };

    fn place(self) -> usize {
        self as usize
    }
}

impl What {
    // As it is printed, all as wide as the longest and a space.
    fn name(self) -> &'static [u8] {
        match self {
            What::Number => b"number  ",
            What::Length => b"length  ",
            What::Start => b"start   ",
            What::Result => b"result  ",
            What::Mapping => b"mapping ",
            What::State => b"state   ",
            What::First => b"area 1  ",
            What::Second => b"area 2  ",
        }
    }
}

// Passes a comparison on, and names what does not hold, by itself or by its place, which counts from 8 on as from 0.
pub fn expect<W: Write>(err: &mut W, what: impl Place, is: bool) -> io::Result<bool>
    ensures { IfOk result (λ r. r ≡ is) }
{
    let k = what.place();
    if !is {
        print(err, WHATS[k % 8].name())?;
    }
    Ok(is)
}

// Whether buf has a part of the record, and the pattern behind it.
pub fn has<W: Write>(
    err: &mut W,
    what: impl Place,
    record: &[u8],
    wanted: impl Place,
    buf: &[u8],
) -> io::Result<bool> {
    expect(err, what, holds(buf, data(record, wanted)))
}

pub fn has_mapping<W: Write>(err: &mut W, record: &[u8], map: &[u32]) -> io::Result<bool> {
    expect(
        err,
        What::Mapping,
        holds_words(map, data(record, Part::Mapping)),
    )
}

// Whether an area, of which as much was lent as a word of the record says, is as the entry leaves it.
pub fn has_area<W: Write>(
    err: &mut W,
    what: impl Place,
    record: &[u8],
    lent: impl Place,
    area: &[u32],
) -> io::Result<bool> {
    expect(
        err,
        what,
        is_left(
            area,
            size(record, lent),
            word(record, Field::Number as usize),
        ),
    )
}
