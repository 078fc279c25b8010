// A file of recorded answers: read, its head looked at, and what is told of it in the end.
ghost use Rattle.std.specs.Io.{ReadsAtMost};

use crate::telling::{print, print_number};
use crate::word;
use reading::read_full;
use std::convert::AsSlice;
use std::fs::{File, Files};
use std::io;
use std::io::Write;

// The bytes `LLRA`.
const MAGIC: u32 = 1095912524;

const VERSION: u32 = 1;

// How many records follow; none where this is no file of the entry.
pub fn count(file: &[u8], entry: u32) -> Option<u32> {
    if (word(file, 0) == MAGIC) & (word(file, 1) == VERSION) & (word(file, 2) == entry) {
        Some(word(file, 3))
    } else {
        None
    }
}

// The rest of a file's line: how many records there are and how many differ, none where it is damaged.
pub fn print_counts<W: Write>(out: &mut W, counts: Option<(u32, u32)>) -> io::Result<()> {
    let Some((inputs, differ)) = counts else {
        return print(out, b": damaged\n");
    };
    print_number(out, b": ", inputs as u64)?;
    print_number(out, b" inputs, ", differ as u64)?;
    print(out, b" differ\n")
}

// Reads a file; answers how many bytes it has, none where it is not there or the path is no text. Where a read fails, the buffer has what
// was read before.
pub fn read<R: Files>(rt: &R, path: impl AsSlice<u8> + Drop, file: &mut [u8]) -> io::Result<usize>
    ensures { ReadsAtMost result file.new }
{
    let Ok(path) = str::from_utf8(path.as_slice()) else {
        return Ok(0);
    };
    match File::open(rt, path) {
        Ok(mut opened) => read_full(&mut opened, file),
        Err(_) => Ok(0),
    }
}
