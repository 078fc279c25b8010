// One record: the entry run on buffers as long as those that were lent, and all that it left compared.
ghost use Rattle.std.specs.Prelude.{◌≤◌, IfOk};

use crate::entries::{Entry, part_start};
use crate::lent::Lent;
use answers::{Answer, length, number};
use recorded::buffers::{BYTE, WORD, put};
use recorded::comparing::{What, expect, has, has_area, has_mapping};
use recorded::telling::{print, print_number};
use recorded::{Field, Part, data, size, state_part, word};
use std::io;
use std::io::Write;

// The part that the first buffer has then.
fn out_part(entry: Entry) -> Part {
    if entry == Entry::Evaluate {
        Part::Output
    } else {
        Part::Result
    }
}

fn is_answer<W: Write>(err: &mut W, entry: Entry, record: &[u8], r: Answer) -> io::Result<bool> {
    Ok(
        expect(
            err,
            What::Number,
            number(r) == word(record, Field::Number as usize),
        )? & expect(err, What::Length, length(r) == size(record, Field::Length))?
            & expect(
                err,
                What::Start,
                part_start(entry, record) == size(record, Field::Start),
            )?,
    )
}

// Whether the entry does what is recorded. Each buffer has more elements than are lent at most, to be found untouched.
fn is_same<W: Write>(err: &mut W, entry: Entry, record: &[u8]) -> io::Result<bool> {
    let mut out = [BYTE; 16640];
    let mut map = [WORD; 576];
    let mut state = [BYTE; 640];
    let mut a = [WORD; 16448];
    let mut b = [WORD; 16448];
    put(data(record, Part::StateBefore), &mut state);
    let lent = Lent {
        out: &mut out,
        map: &mut map,
        state: &mut state,
        a: &mut a,
        b: &mut b,
    };
    let r = lent.front(entry, record).run(entry, record);
    Ok(
        is_answer(err, entry, record, r)?
            & has(err, What::Result, record, out_part(entry), &out)?
            & has_mapping(err, record, &map)?
            & has(err, What::State, record, state_part(record), &state)?
            & has_area(err, What::First, record, Field::First, &a)?
            & has_area(err, What::Second, record, Field::Second, &b)?,
    )
}

// Replays a record, number k of its file; answers how many differ, 0 or 1.
pub fn replay<W: Write>(err: &mut W, record: &[u8], entry: Entry, k: u32) -> io::Result<u32>
    ensures { IfOk result (λ n. n ≤ 1) }
{
    if is_same(err, entry, record)? {
        return Ok(0);
    }
    print_number(err, b"differ in record ", k as u64)?;
    print_number(err, b" of entry ", entry as u32 as u64)?;
    print(err, b"\n")?;
    Ok(1)
}
