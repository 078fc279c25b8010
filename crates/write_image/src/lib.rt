// The bytes of a network's image, and the words of a mapping, into buffers that have room for them; and the length of the image.
#![tactic(auto)]

ghost use Rattle.std.specs.Prelude.{◌≡◌, ◌+◌, ◌*◌, length};
ghost use Rattle.model.specs.Image.{table_words, gate_words, gates_words, net_words, image_of};
ghost use Rattle.model.specs.Answers.{laid_over};
ghost use Rattle.tables.specs.Layout.{gate_at, nodes_of};
ghost use Rattle.tables.specs.Holding.{network_of, Held};
ghost use Rattle.image_trailer.specs.Trailers.{put_words};
ghost use Rattle.write_image.specs.Writing.{ins_from, outs_from, mapping_in, Node, Inputs, Writes, Put, Room, Outputs, Mapped};

use image_trailer::write_trailer;
use kinds::{Kind, kind_of};
use tables::counts::Counts;
use tables::layout::{count_at, first_at, high_at, input_at, kind_at, low_at, output_at};
use tables::scratch::{TR, word};
use words::put_word;

// The words of node v's record.
fn record_len(from: &[u32], v: usize) -> usize
    requires { Node from.now v }
    ensures { result ≡ length (gate_words (gate_at from.now v)) }
{
    let n = count_at(from, v);
    if kind_of(kind_at(from, v)) == Kind::Lut {
        n + 3
    } else {
        n + 1
    }
}

// The bytes of the image.
pub fn image_len(from: &[u32], counts: Counts) -> usize
    requires { Held from.now counts }
    ensures { result ≡ length (image_of (network_of from.now counts)) }
{
    let nodes = counts.nodes;
    let mut n: usize = 0;
    for v in 0..nodes {
        n += record_len(from, v);
    }
    4 * (n + counts.outs + 4)
}

// The n input words from `first` on, as words from the byte `at` on.
fn write_inputs(from: &[u32], first: usize, n: usize, out: &mut [u8], at: usize)
    requires { Inputs from.now first n out.old at }
    ensures { out.new ≡ put_words out.old at (ins_from from.now first n) }
{
    for j in 0..n {
        put_word(out, at + 4 * j, input_at(from, first + j));
    }
}

// Node v's table words from the byte `at` on, where it is a Lut; the byte where they end.
fn write_table(from: &[u32], v: usize, out: &mut [u8], at: usize) -> usize
    requires { Writes from.now v (table_words (gate_at from.now v)) out.old at }
    ensures { Put out.old at (table_words (gate_at from.now v)) out.new result }
{
    if kind_of(kind_at(from, v)) != Kind::Lut {
        return at;
    }
    put_word(out, at, low_at(from, v));
    put_word(out, at + 4, high_at(from, v));
    at + 8
}

// Node v's record from the byte `at` on; the byte where it ends.
fn write_gate(from: &[u32], v: usize, out: &mut [u8], at: usize) -> usize
    requires { Writes from.now v (gate_words (gate_at from.now v)) out.old at }
    ensures { Put out.old at (gate_words (gate_at from.now v)) out.new result }
{
    let n = count_at(from, v);
    put_word(out, at, kind_at(from, v) + 256 * (n as u32));
    write_inputs(from, first_at(from, v), n, out, at + 4);
    write_table(from, v, out, at + 4 + 4 * n)
}

// All records from the front on; the byte where they end.
fn write_nodes(from: &[u32], counts: Counts, out: &mut [u8]) -> usize
    requires { Room from.now counts (gates_words (nodes_of from.now counts.nodes)) out.old }
    ensures { Put out.old 0 (gates_words (nodes_of from.now counts.nodes)) out.new result }
{
    let nodes = counts.nodes;
    let mut at: usize = 0;
    for v in 0..nodes {
        at = write_gate(from, v, out, at);
    }
    at
}

// So many outputs, as words from the byte `at` on.
// stays beside write_inputs: where the words stand is for tables to say (input_at, output_at), so no slice of them is lent.
fn write_outputs(from: &[u32], outs: usize, out: &mut [u8], at: usize)
    requires { Outputs from.now outs out.old at }
    ensures { out.new ≡ put_words out.old at (outs_from from.now outs) }
{
    for j in 0..outs {
        put_word(out, at + 4 * j, output_at(from, j));
    }
}

// The image at the front of a buffer that has room for it.
pub fn write_image(from: &[u32], counts: Counts, out: &mut [u8])
    requires { Room from.now counts (net_words (network_of from.now counts)) out.old }
    ensures { out.new ≡ laid_over (image_of (network_of from.now counts)) out.old }
{
    let end = write_nodes(from, counts, out);
    write_outputs(from, counts.outs, out, end);
    write_trailer(counts, out, end + 4 * counts.outs);
}

// The mapping of so many old nodes, which stands behind the network, at the front of a buffer that has room for it.
// stays: no copy_from_slice, as in `tables`.
pub fn write_mapping(from: &[u32], old: usize, map: &mut [u32])
    requires { Mapped from.now old map.old }
    ensures { map.new ≡ laid_over (mapping_in from.now old) map.old }
{
    for i in 0..old {
        map[i] = word(from, TR, i);
    }
}
