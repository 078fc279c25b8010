// Prints the normal form of each gate of its input: a line `<gate> -> <normal form>` for each record. Standard input holds the
// records of an image one after another, at most 16,384 bytes; the program ends at the first that is none.
#![tactic(auto)]

ghost use Rattle.std.specs.Prelude.{◌≤◌, ◌<◌, length, IfOk, IfSome};

use canonical_gates::make_canonical;
use gates::Normalization;
use kinds::Kind;
use listing::text::{put_all, put_signal};
use reading::read_full;
use std::io;
use std::io::Write;
use text_parts::Text;

mod record;
mod text;

// A line's left side, into out: the gate as it was read.
fn print_gate<W: Write>(
    to: &mut W,
    out: &mut [u8],
    kind: Kind,
    ins: &[u32],
    table: u64,
) -> io::Result<()> {
    let mut side = Text { out, at: 0 };
    text::put_gate(&mut side, kind, ins, table);
    put_all(&mut side, b" -> ");
    flush(to, &side)
}

// A line's right side, into out: the signal, or the gate with its inversion.
fn print_normal<W: Write>(
    to: &mut W,
    out: &mut [u8],
    r: Normalization,
    list: &[u32],
    table: u64,
) -> io::Result<()> {
    let mut side = Text { out, at: 0 };
    match r {
        Normalization::Copy(s) => put_signal(&mut side, s),
        Normalization::Node { kind, count, inv } => {
            side.put_mark(inv);
            let ins = &list[..count.min(list.len())];
            text::put_gate(&mut side, kind, ins, table);
        }
    }
    side.put(b'\n');
    flush(to, &side)
}

fn flush<W: Write>(to: &mut W, text: &Text) -> io::Result<()> {
    if text.at <= text.out.len() {
        to.write_all(&text.out[..text.at])?;
    }
    Ok(())
}

// The line of the record at the start of img; answers how many bytes it has, None where no record starts there.
fn print_record<W: Write>(
    to: &mut W,
    img: &[u8],
    list: &mut [u32],
    out: &mut [u8],
) -> io::Result<Option<usize>>
    ensures { IfOk result (λ o. IfSome o (λ n. (0 < n) × (n ≤ length img.now))) }
{
    let Some(r) = record::read(img, list) else {
        return Ok(None);
    };
    print_gate(to, out, r.kind, &list[..r.count], r.table)?;
    let normal = make_canonical(r.kind, list, r.count);
    print_normal(to, out, normal, list, r.table)?;
    Ok(Some(r.size))
}

fn print_all<W: Write>(to: &mut W, img: &[u8], list: &mut [u32], out: &mut [u8]) -> io::Result<()> {
    let mut rest = img;
    while let Some(size) = print_record(to, rest, list, out)? {
        rest = &rest[size..];
    }
    Ok(())
}

fn main(rt: HostRuntime) -> io::Result<()> {
    let mut img = [0u8; 16384];
    let mut list = [0u32; 4096];
    let mut out = [0u8; 65536];
    let n = read_full(&mut rt.stdin(), &mut img)?;
    print_all(&mut rt.stdout(), &img[..n], &mut list, &mut out)
}
