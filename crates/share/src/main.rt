// Prints the listing of a shared network, or `refused` and the number. Standard input holds a word with the flattening limit, then an
// image; under 4 or over 16,384 bytes in all are refused with 2.
#![tactic(auto)]

ghost use Rattle.std.specs.Prelude.{◌≤◌, length};
ghost use Rattle.tables.specs.Layout.{net_size};
ghost use Rattle.tables.specs.Working.{Answered};
ghost use Rattle.share.specs.Texts.{refused_text, list_outcome, text_for, printed_of, Shown, Lent};
ghost use Rattle.refusals.specs.Numbers.{number, numbered};

use answers::Answer;
use listing::listing;
use listing::text::{put_all, put_number};
use load::load;
use reading::read_full;
use refusals::Refusal;
use sharing::share::share;
use std::io;
use std::io::Write;
use text_parts::Text;
use words::word_at;

// `refused` and the number, at the front of the text. Its length, as each of these answers.
fn refuse(why: Refusal, text: &mut [u8]) -> usize
    requires { 32768 ≤ length text.old }
    ensures { Shown (refused_text (number why)) text.old text.new result }
{
    let mut to = Text { out: text, at: 0 };
    put_all(&mut to, b"refused ");
    put_number(&mut to, u32::from(why) as u64);
    to.put(b'\n');
    to.at
}

// The listing of an image's network.
fn list(image: &[u8], area: &mut [u32], text: &mut [u8]) -> Answer
    requires { net_size ≤ length area.old }
    ensures { Answered (list_outcome image.now (length text.old)) text.old (numbered result) text.new }
{
    let counts = load::<false>(image, area)?;
    listing(area, counts, text)
}

// The same, or the number that refuses it.
fn show(image: &[u8], area: &mut [u32], text: &mut [u8]) -> usize
    requires { Lent area.old text.old }
    ensures { Shown (text_for (list_outcome image.now (length text.old))) text.old text.new result }
{
    match list(image, area, text) {
        Ok(len) => len,
        Err(why) => refuse(why, text),
    }
}

// What is printed of the input.
fn answer(input: &[u8], out: &mut [u8], a: &mut [u32], b: &mut [u32], text: &mut [u8]) -> usize
    requires { Lent a.old text.old }
    ensures { Shown (printed_of input.now out.old a.old b.old (length text.old)) text.old text.new result }
{
    if input.len() < 4 || 16384 < input.len() {
        return refuse(Refusal::Frame, text);
    }
    let limit = word_at(input, 0);
    match share(&input[4..], limit, out, a, b) {
        Ok(len) => show(&out[..len], a, text),
        Err(why) => refuse(why, text),
    }
}

fn main(rt: HostRuntime) -> io::Result<()> {
    let mut input = [0u8; 16385];
    let mut out = [0u8; 16384];
    let mut a = [0u32; 16384];
    let mut b = [0u32; 16384];
    let mut text = [0u8; 32768];
    let n = read_full(&mut rt.stdin(), &mut input)?;
    let len = answer(&input[..n], &mut out, &mut a, &mut b, &mut text);
    rt.stdout().write_all(&text[..len])
}
