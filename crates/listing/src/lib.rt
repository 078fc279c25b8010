// A network as text, into a lent buffer. First its length, then 13 or the bytes, and nothing past them.
#![tactic(auto)]

ghost use Rattle.std.specs.Prelude.{◌≡◌, [], ◌++◌, ◌+◌, ◌<◌, length};
ghost use Rattle.model.specs.Answers.{written, in_room};
ghost use Rattle.model.specs.Listing.{decimal, spaced, numbered, counts_line, table_fields, node_line, output_line, listing_of};
ghost use Rattle.tables.specs.Layout.{gate_at, nodes_of, outputs_of};
ghost use Rattle.tables.specs.Holding.{network_of, Held};
ghost use Rattle.tables.specs.Working.{Answered};
ghost use Rattle.text_parts.specs.Putting.{Put, Wrote};
ghost use Rattle.listing.specs.Fields.{Node, Inputs, Outputs, head_text, inputs_text};
ghost use Rattle.refusals.specs.Numbers.{numbered as by_number};

use answers::Answer;
use kinds::{Kind, kind_of};
use refusals::Refusal;
use signal::Signal;
use tables::counts::Counts;
use tables::layout::{count_at, first_at, high_at, input_at, kind_at, low_at, output_at};
use text::{put_all, put_kind, put_name, put_number, put_signal};
use text_parts::{Text, table};

pub mod text;

// A text, and a number behind it.
fn put_field(to: &mut Text, text: &[u8], n: usize)
    ensures { Wrote to.old (text.now ++ decimal n) to.new }
{
    put_all(to, text);
    put_number(to, n as u64);
}

// Line one: the counts.
fn put_counts(to: &mut Text, counts: Counts)
    ensures { Wrote to.old (counts_line counts.inputs counts.nodes counts.outs) to.new }
{
    put_field(to, b"inputs ", counts.inputs);
    put_field(to, b" nodes ", counts.nodes);
    put_field(to, b" outputs ", counts.outs);
    to.put(b'\n');
}

// The n inputs from `first` on, a space before each.
fn put_inputs(to: &mut Text, from: &[u32], first: usize, n: usize)
    requires { Inputs from.now first n }
    ensures { Wrote to.old (inputs_text from.now first n) to.new }
{
    for j in 0..n {
        to.put(b' ');
        let a = input_at(from, first + j);
        put_signal(to, Signal { a });
    }
}

// A Lut's table, with a space before it; nothing for other kinds.
fn put_table(to: &mut Text, from: &[u32], v: usize)
    requires { Node from.now v }
    ensures { Wrote to.old (spaced (table_fields (gate_at from.now v))) to.new }
{
    if kind_at(from, v) == Kind::Lut as u32 {
        to.put(b' ');
        put_number(to, table(low_at(from, v), high_at(from, v)));
    }
}

// Node v's name and kind.
fn put_head(to: &mut Text, v: usize, kind: u32)
    ensures { Wrote to.old (head_text v kind) to.new }
{
    put_name(to, b'x', v as u64);
    to.put(b' ');
    put_kind(to, kind_of(kind));
}

// Node v's line.
fn put_node(to: &mut Text, from: &[u32], v: usize)
    requires { Node from.now v }
    ensures { Wrote to.old (node_line v (gate_at from.now v)) to.new }
{
    put_head(to, v, kind_at(from, v));
    put_inputs(to, from, first_at(from, v), count_at(from, v));
    put_table(to, from, v);
    to.put(b'\n');
}

// A line for each node.
fn put_nodes(to: &mut Text, from: &[u32], counts: Counts)
    requires { Held from.now counts }
    ensures { Wrote to.old (numbered node_line 0 (nodes_of from.now counts.nodes)) to.new }
{
    for v in 0..counts.nodes {
        put_node(to, from, v);
    }
}

// The line of output o, which is the signal s.
fn put_output(to: &mut Text, o: usize, s: u32)
    ensures { Wrote to.old (output_line o s) to.new }
{
    put_name(to, b'o', o as u64);
    to.put(b' ');
    put_signal(to, Signal { a: s });
    to.put(b'\n');
}

// A line for each output.
fn put_outputs(to: &mut Text, from: &[u32], outs: usize)
    requires { Outputs from.now outs }
    ensures { Wrote to.old (numbered output_line 0 (outputs_of from.now outs)) to.new }
{
    for o in 0..outs {
        put_output(to, o, output_at(from, o));
    }
}

// The whole text from the front on; what has no room is left out. Its length.
fn put_listing(from: &[u32], counts: Counts, out: &mut [u8]) -> usize
    requires { Held from.now counts }
    ensures { Put out.old 0 (listing_of (network_of from.now counts)) out.new result }
{
    let mut to = Text { out, at: 0 };
    put_counts(&mut to, counts);
    put_nodes(&mut to, from, counts);
    put_outputs(&mut to, from, counts.outs);
    to.at
}

// The text's length.
fn listing_len(from: &[u32], counts: Counts) -> usize
    requires { Held from.now counts }
    ensures { result ≡ length (listing_of (network_of from.now counts)) }
{
    let mut none = [0u8; 0];
    put_listing(from, counts, &mut none)
}

// The text of the network in an area.
pub fn listing(from: &[u32], counts: Counts, out: &mut [u8]) -> Answer
    requires { Held from.now counts }
    ensures { Answered (in_room (length out.old) 0 (written (listing_of (network_of from.now counts)) [])) out.old (by_number result) out.new }
{
    let len = listing_len(from, counts);
    if out.len() < len {
        return Err(Refusal::Room);
    }
    put_listing(from, counts, out);
    Ok(len)
}
