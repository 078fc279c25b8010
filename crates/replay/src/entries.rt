// The entries: each has its code and its names here, its arm in `Lent::run`, and its line in the file `stdout`, in the order of the codes.
use answers::Answer;
use lanternlean::record::{record, record_at};
use recorded::buffers::slice;
use recorded::{Field, Part, data, word};
use refusals::Refusal;

// By the codes of docs/RECORDED.md.
#[derive(Clone, Copy, PartialEq, Eq)]
pub enum Entry {
    Read = 0,
    Canonical = 1,
    Dedup = 2,
    Cleanup = 3,
    Sort = 4,
    Flatten = 5,
    Factor = 6,
    Share = 7,
    Evaluate = 8,
    Record = 9,
}

// In the order of their codes.
pub const ENTRIES: [Entry; 10] = [
    Entry::Read,
    Entry::Canonical,
    Entry::Dedup,
    Entry::Cleanup,
    Entry::Sort,
    Entry::Flatten,
    Entry::Factor,
    Entry::Share,
    Entry::Evaluate,
    Entry::Record,
];

impl Entry {
    pub fn name(self) -> &'static [u8] {
        match self {
            Entry::Read => b"read",
            Entry::Canonical => b"canonical",
            Entry::Dedup => b"dedup",
            Entry::Cleanup => b"cleanup",
            Entry::Sort => b"sort",
            Entry::Flatten => b"flatten",
            Entry::Factor => b"factor",
            Entry::Share => b"share",
            Entry::Evaluate => b"evaluate",
            Entry::Record => b"record",
        }
    }

    // The file of its recorded answers.
    pub fn file(self) -> &'static str {
        match self {
            Entry::Read => "read.bin",
            Entry::Canonical => "canonical.bin",
            Entry::Dedup => "dedup.bin",
            Entry::Cleanup => "cleanup.bin",
            Entry::Sort => "sort.bin",
            Entry::Flatten => "flatten.bin",
            Entry::Factor => "factor.bin",
            Entry::Share => "share.bin",
            Entry::Evaluate => "evaluate.bin",
            Entry::Record => "record.bin",
        }
    }
}

// The entry without a number: it counts as accepted where the part has the image's bytes from its start on, else as refused.
pub fn run_record(image: &[u8], k: u32) -> Answer {
    let part = record(image, k);
    if part == slice(image, record_at(image, k), part.len()) {
        return Ok(part.len());
    }
    Err(Refusal::Areas)
}

// Where record k begins; 0 for the other entries.
pub fn part_start(entry: Entry, recorded: &[u8]) -> usize {
    if entry == Entry::Record {
        record_at(
            data(recorded, Part::Image),
            word(recorded, Field::K as usize),
        )
    } else {
        0
    }
}
