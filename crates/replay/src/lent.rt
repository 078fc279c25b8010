// What an entry is lent besides the image and its number, and the entry run on the front of it.
ghost use Rattle.std.specs.Prelude.{◌≤◌};

use crate::entries::{Entry, run_record};
use answers::Answer;
use evaluation::evaluate;
use lanternlean::read::read;
use network::canonical::canonical;
use network::cleaning::cleanup;
use network::deduplicate::dedup;
use network::sort::sort;
use recorded::{Field, Part, data, size, word};
use sharing::factor::factor;
use sharing::flattening::flatten;
use sharing::share::share;

// `out` takes an image, or the outputs of a cycle.
pub struct Lent<'a> {
    pub out: &'a mut [u8],
    pub map: &'a mut [u32],
    pub state: &'a mut [u8],
    pub a: &'a mut [u32],
    pub b: &'a mut [u32],
}

// How much was lent of a buffer of len elements: a word of the head, which is no more than that in a record within bounds.
fn len_lent(record: &[u8], w: Field, len: usize) -> usize
    ensures { result ≤ len }
{
    size(record, w).min(len)
}

// The word that says how much was lent of the first buffer.
fn out_word(entry: Entry) -> Field {
    if entry == Entry::Evaluate {
        Field::Outputs
    } else {
        Field::Out
    }
}

impl<'a> Lent<'a> {
    // The front of each buffer, as much of it as was lent.
    pub fn front(self, entry: Entry, record: &[u8]) -> Lent<'a> {
        let Lent {
            out,
            map,
            state,
            a,
            b,
        } = self;
        let out_len = len_lent(record, out_word(entry), out.len());
        let map_len = len_lent(record, Field::Map, map.len());
        let state_len = len_lent(record, Field::State, state.len());
        let a_len = len_lent(record, Field::First, a.len());
        let b_len = len_lent(record, Field::Second, b.len());
        Lent {
            out: &mut out[..out_len],
            map: &mut map[..map_len],
            state: &mut state[..state_len],
            a: &mut a[..a_len],
            b: &mut b[..b_len],
        }
    }

    // Runs an entry on all of it.
    pub fn run(self, entry: Entry, recorded: &[u8]) -> Answer {
        let image = data(recorded, Part::Image);
        let k = word(recorded, Field::K as usize);
        let Lent {
            out,
            map,
            state,
            a,
            b,
        } = self;
        match entry {
            Entry::Read => read(image, out, a, b),
            Entry::Canonical => canonical(image, out, map, a, b),
            Entry::Dedup => dedup(image, out, map, a, b),
            Entry::Cleanup => cleanup(image, out, map, a, b),
            Entry::Sort => sort(image, out, map, a, b),
            Entry::Flatten => flatten(image, k, out, a, b),
            Entry::Factor => factor(image, out, a, b),
            Entry::Share => share(image, k, out, a, b),
            Entry::Evaluate => evaluate(image, data(recorded, Part::Inputs), state, out, a, b),
            Entry::Record => run_record(image, k),
        }
    }
}
