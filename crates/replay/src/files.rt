// The files of recorded answers: a head of four words, then record after record.
use crate::entries::{ENTRIES, Entry};
use crate::replaying::replay;
use recorded::buffers::slice;
use recorded::first;
use recorded::heads::{count, print_counts, read};
use recorded::telling::print;
use std::fs::Files;
use std::io;
use std::io::Write;

// The bytes of a file's head.
const HEAD: usize = 16;

// Replays so many records; how many differ, none where they are not there or not all.
fn replay_records<E: Write>(
    err: &mut E,
    records: &[u8],
    entry: Entry,
    inputs: u32,
) -> io::Result<Option<u32>> {
    let mut rest = records;
    let mut differ: u32 = 0;
    for k in 0..inputs {
        let Some((record, behind)) = first(rest) else {
            return Ok(None);
        };
        differ += replay(err, record, entry, k)?;
        rest = behind;
    }
    Ok(if rest.is_empty() { Some(differ) } else { None })
}

// Replays the records of a file and prints how many there are, and how many differ.
fn replay_file<W: Write, E: Write>(
    out: &mut W,
    err: &mut E,
    file: &[u8],
    entry: Entry,
) -> io::Result<()> {
    let inputs = count(file, entry as u32).unwrap_or(0);
    let Some(records) = file.get(HEAD..) else {
        return print_counts(out, None);
    };
    let differ = replay_records(err, records, entry, inputs)?;
    print_counts(out, differ.map(|n| (inputs, n)))
}

// Replays each entry's file and prints its line.
pub fn replay_all<R: Files, W: Write, E: Write>(
    rt: &R,
    out: &mut W,
    err: &mut E,
    file: &mut [u8],
) -> io::Result<()> {
    for entry in ENTRIES {
        print(out, entry.name())?;
        let n = read(rt, entry.file(), file)?;
        replay_file(out, err, slice(file, 0, n), entry)?;
    }
    Ok(())
}
