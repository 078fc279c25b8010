// Document 01's hand cases: in a line `case: entry: image` the image is its words in decimal, a space between two; commas are only
// for the reader. Printed is the line, and for the image what came out: `refused` and the number, the words of the image that was
// written, or the output of four cycles.
ghost use Rattle.std.specs.Prelude.{◌≤◌};

use crate::entries::{ENTRIES, Entry};
use crate::lent::Lent;
use answers::Answer;
use recorded::buffers::slice;
use recorded::hand::{behind_colon, put, put_image};
use recorded::telling::{print, print_image, print_number};
use std::io;
use std::io::Write;

// The flattening limit of document 01's example.
const LIMIT: u32 = 64;

// The bytes of out that are printed: a cycle's one output is its first word.
fn printed_len(entry: Entry, len: usize) -> usize {
    if entry == Entry::Evaluate { 4 } else { len }
}

fn print_answer<W: Write>(to: &mut W, entry: Entry, r: Answer, out: &[u8]) -> io::Result<()> {
    match r {
        Ok(len) => print_image(to, slice(out, 0, printed_len(entry, len))),
        Err(why) => print_number(to, b" refused ", u32::from(why) as u64),
    }
}

fn cycles(entry: Entry) -> u32
    ensures { result ≤ 4 }
{
    if entry == Entry::Evaluate { 4 } else { 1 }
}

// Runs the entry on buffers of its own and prints what came out.
fn show<W: Write>(to: &mut W, entry: Entry, record: &[u8]) -> io::Result<()> {
    let mut out = [0u8; 1024];
    let mut map = [0u32; 512];
    let mut state = [0u8; 512];
    let mut a = [0u32; 16384];
    let mut b = [0u32; 16384];
    for _ in 0..cycles(entry) {
        let lent = Lent {
            out: &mut out,
            map: &mut map,
            state: &mut state,
            a: &mut a,
            b: &mut b,
        };
        let r = lent.front(entry, record).run(entry, record);
        print_answer(to, entry, r, &out)?;
    }
    print(to, b"\n")
}

// Shows the entry on the image that a text has, lent all that `show` has.
fn show_image<W: Write>(to: &mut W, entry: Entry, text: &[u8]) -> io::Result<()> {
    let mut record = [255u8; 4096];
    let end = put_image(&mut record, text);
    put(&mut record, 0, end as u32 - 64);
    put(&mut record, 4, LIMIT);
    show(to, entry, &record)
}

// The entry whose name a text begins with, behind a space.
fn entry_of(text: &[u8]) -> Option<Entry> {
    let (_, name) = text.split_first()?;
    ENTRIES.into_iter().find(|e| name.starts_with(e.name()))
}

fn show_line<W: Write>(to: &mut W, line: &[u8]) -> io::Result<()> {
    let Some(image) = behind_colon(line, line.len()) else {
        return Ok(());
    };
    let name = behind_colon(line, image - 1).unwrap_or(0);
    let entry = entry_of(&line[name..]).unwrap_or(Entry::Record);
    print(to, &line[..image])?;
    show_image(to, entry, &line[image..])
}

// The first line is a heading.
pub fn show_all<W: Write>(to: &mut W, text: &[u8]) -> io::Result<()> {
    for line in text.split(|b| *b == b'\n').skip(1) {
        show_line(to, line)?;
    }
    Ok(())
}
