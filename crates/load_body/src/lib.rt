// The body of an accepted image into an area, in one pass over the records. It cannot fail.
#![tactic(auto)]

ghost use Rattle.std.specs.Prelude.{◌≡◌, ◌+◌};
ghost use Rattle.model.specs.Image.{words, net_in};
ghost use Rattle.tables.specs.Building.{put_inputs, put_outputs};
ghost use Rattle.tables.specs.Holding.{Holds};
ghost use Rattle.load_body.specs.Loading.{word_from, Copies, Headed, Tabled, Fits, Placed, Records, Nodes, Outputs, Loadable};

use kinds::Kind;
use tables::counts::Counts;
use tables::layout::{put_gate, put_input, put_output, put_table};

// Where the next record stands among the body's words, and its inputs in the area's table.
#[derive(Clone, Copy)]
struct Place {
    at: usize,
    first: usize,
}

// The n words from `at` on, as the input words from `first` on.
// stays: a twin of load_outputs but for the store, which tables alone knows; one function that is handed the store is no plainer.
fn load_inputs(body: &[u8], at: usize, to: &mut [u32], first: usize, n: usize)
    requires { Copies body.now at to.old first n }
    ensures { to.new ≡ put_inputs to.old first (word_from (words body.now) at) n }
{
    for j in 0..n {
        let s = words::nth(body, at + j);
        put_input(to, first + j, s);
    }
}

// The table of the record at `at`, whose header is h, for node v; how many words it took. The area may hold anything, so a table is
// put for every kind.
fn load_table(body: &[u8], at: usize, h: u32, to: &mut [u32], v: usize) -> usize
    requires { Headed body.now at h to.old v }
    ensures { Tabled body.now at to.old v to.new result }
{
    if h % 256 != Kind::Lut as u32 {
        put_table(to, v, 0, 0);
        return 0;
    }
    let n = (h / 256) as usize;
    let low = words::nth(body, at + 1 + n);
    let high = words::nth(body, at + 2 + n);
    put_table(to, v, low, high);
    2
}

// The record at a place as node v; the place of the next one.
fn load_gate(body: &[u8], p: Place, to: &mut [u32], v: usize) -> Place
    requires { Fits body.now p to.old v }
    ensures { Placed body.now p to.old v to.new result }
{
    let Place { at, first } = p;
    let h = words::nth(body, at);
    let n = (h / 256) as usize;
    load_inputs(body, at + 1, to, first, n);
    put_gate(to, v, h % 256, first as u32, h / 256);
    let extra = load_table(body, at, h, to, v);
    Place {
        at: at + 1 + n + extra,
        first: first + n,
    }
}

// The records of so many nodes; the word where they end.
fn load_nodes(body: &[u8], to: &mut [u32], nodes: usize) -> usize
    requires { Records body.now to.old nodes }
    ensures { Nodes body.now to.new nodes result }
{
    let mut p = Place { at: 0, first: 0 };
    for v in 0..nodes {
        p = load_gate(body, p, to, v);
    }
    p.at
}

// The words from `at` on, as so many outputs.
fn load_outputs(body: &[u8], at: usize, to: &mut [u32], outs: usize)
    requires { Outputs body.now at to.old outs }
    ensures { to.new ≡ put_outputs to.old (word_from (words body.now) at) outs }
{
    for j in 0..outs {
        let s = words::nth(body, at + j);
        put_output(to, j, s);
    }
}

// The body of an image that was accepted, its prefix cut off: the area then holds the image's network.
pub fn load_body(body: &[u8], to: &mut [u32], counts: Counts)
    requires { Loadable body.now to.old counts }
    ensures { Holds to.new counts (net_in counts.inputs counts.nodes counts.outs (words body.now)) }
{
    let end = load_nodes(body, to, counts.nodes);
    load_outputs(body, end, to, counts.outs);
}
