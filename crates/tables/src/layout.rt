// A network in an area: where each word of it stands, read and put; and the areas cleared.
ghost use Rattle.std.specs.Prelude.{◌≡◌, ◌+◌, ◌-◌, ◌*◌, ◌<◌, ◌≤◌, length};
ghost use Rattle.model.specs.Answers.{areas_short};
ghost use Rattle.tables.specs.Building.{CopiesInputs, inputs_from, put_inputs, put_outputs};
ghost use Rattle.tables.specs.Working.{Areas, Cleared};
ghost use Rattle.tables.specs.Layout.{net_size, kind_ix, first_ix, count_ix, kind_at, first_at, count_at, input_at, low_at, high_at, output_at, put_gate, put_input, put_table, put_output};

use clearing::clear;

const INS: usize = 1536;

const TAB: usize = 3584;

const OUT: usize = 4608;

// The places of the gate table's words.
// stays: these, and the words read and put below, differ in the place alone; a const parameter would hand the places to every caller, and they
// are known here alone.
fn kind_ix(v: usize) -> usize
    requires { v < 512 }
    ensures { result ≡ kind_ix v }
{
    3 * v
}

fn first_ix(v: usize) -> usize
    requires { v < 512 }
    ensures { result ≡ first_ix v }
{
    3 * v + 1
}

fn count_ix(v: usize) -> usize
    requires { v < 512 }
    ensures { result ≡ count_ix v }
{
    3 * v + 2
}

pub fn kind_at(net: &[u32], v: usize) -> u32
    requires { (v < 512) × (net_size ≤ length net.now) }
    ensures { result ≡ kind_at net.now v }
{
    let i = kind_ix(v);
    net[i]
}

pub fn first_at(net: &[u32], v: usize) -> usize
    requires { (v < 512) × (net_size ≤ length net.now) }
    ensures { result ≡ first_at net.now v }
{
    let i = first_ix(v);
    net[i] as usize
}

pub fn count_at(net: &[u32], v: usize) -> usize
    requires { (v < 512) × (net_size ≤ length net.now) }
    ensures { result ≡ count_at net.now v }
{
    let i = count_ix(v);
    net[i] as usize
}

pub fn input_at(net: &[u32], k: usize) -> u32
    requires { (k < 2048) × (net_size ≤ length net.now) }
    ensures { result ≡ input_at net.now k }
{
    net[INS + k]
}

pub fn low_at(net: &[u32], v: usize) -> u32
    requires { (v < 512) × (net_size ≤ length net.now) }
    ensures { result ≡ low_at net.now v }
{
    net[TAB + 2 * v]
}

pub fn high_at(net: &[u32], v: usize) -> u32
    requires { (v < 512) × (net_size ≤ length net.now) }
    ensures { result ≡ high_at net.now v }
{
    net[TAB + 2 * v + 1]
}

pub fn output_at(net: &[u32], o: usize) -> u32
    requires { (o < 64) × (net_size ≤ length net.now) }
    ensures { result ≡ output_at net.now o }
{
    net[OUT + o]
}

pub fn put_gate(net: &mut [u32], v: usize, kind: u32, first: u32, count: u32)
    requires { (v < 512) × (net_size ≤ length net.old) }
    ensures { net.new ≡ put_gate net.old v kind first count }
{
    let i = kind_ix(v);
    let j = first_ix(v);
    let k = count_ix(v);
    net[i] = kind;
    net[j] = first;
    net[k] = count;
}

pub fn put_input(net: &mut [u32], k: usize, s: u32)
    requires { (k < 2048) × (net_size ≤ length net.old) }
    ensures { net.new ≡ put_input net.old k s }
{
    net[INS + k] = s;
}

pub fn put_table(net: &mut [u32], v: usize, low: u32, high: u32)
    requires { (v < 512) × (net_size ≤ length net.old) }
    ensures { net.new ≡ put_table net.old v low high }
{
    net[TAB + 2 * v] = low;
    net[TAB + 2 * v + 1] = high;
}

pub fn put_output(net: &mut [u32], o: usize, s: u32)
    requires { (o < 64) × (net_size ≤ length net.old) }
    ensures { net.new ≡ put_output net.old o s }
{
    net[OUT + o] = s;
}

// stays: no copy_from_slice, for which the archive for C would need memmove; it asks for memset alone.
fn copy_words(from: &[u32], to: &mut [u32])
    requires { length from.now ≡ length to.old }
    ensures { to.new ≡ from.now }
{
    for i in 0..to.len() {
        to[i] = from[i];
    }
}

// n input words of `from`, from place f on, to place `at`.
pub fn copy_inputs(from: &[u32], to: &mut [u32], f: usize, at: usize, n: usize)
    requires { CopiesInputs from.now to.old f at n }
    ensures { to.new ≡ put_inputs to.old at (inputs_from from.now f) n }
{
    copy_words(&from[INS + f..INS + f + n], &mut to[INS + at..INS + at + n]);
}

// The same within one network, to no place behind f: from the first word up.
fn move_forward(net: &mut [u32], f: usize, at: usize, n: usize)
    requires { (CopiesInputs net.old net.old f at n) × (at ≤ f) }
    ensures { net.new ≡ put_inputs net.old at (inputs_from net.old f) n }
{
    for j in 0..n {
        let s = input_at(net, f + j);
        put_input(net, at + j, s);
    }
}

// To no place before f: from the last word down.
fn move_back(net: &mut [u32], f: usize, at: usize, n: usize)
    requires { (CopiesInputs net.old net.old f at n) × (f ≤ at) }
    ensures { net.new ≡ put_inputs net.old at (inputs_from net.old f) n }
{
    for j in (0..n).rev() {
        let s = input_at(net, f + j);
        put_input(net, at + j, s);
    }
}

// To any place: no word is overwritten before it is read.
pub fn move_inputs(net: &mut [u32], f: usize, at: usize, n: usize)
    requires { CopiesInputs net.old net.old f at n }
    ensures { net.new ≡ put_inputs net.old at (inputs_from net.old f) n }
{
    if at <= f {
        move_forward(net, f, at, n);
    } else {
        move_back(net, f, at, n);
    }
}

// The first m outputs of `from`.
pub fn copy_outputs(from: &[u32], to: &mut [u32], m: usize)
    requires { (m ≤ 64) × (net_size ≤ length from.now) × (net_size ≤ length to.old) }
    ensures { to.new ≡ put_outputs to.old (output_at from.now) m }
{
    copy_words(&from[OUT..OUT + m], &mut to[OUT..OUT + m]);
}

// 1: "either of the two work areas is below 16,384 words".
pub fn areas_short(a: &[u32], b: &[u32]) -> bool
    ensures { result ≡ areas_short a.now b.now }
{
    (a.len() < 16384) | (b.len() < 16384)
}

// Both areas, once the work is done.
pub fn clear_areas(a: &mut [u32], b: &mut [u32])
    requires { Areas a.old b.old }
    ensures { Cleared a.old b.old a.new b.new }
{
    clear(a);
    clear(b);
}
