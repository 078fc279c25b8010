// finalize: what is left of each gate joined two by two, in rounds, until one signal is left.
ghost use Rattle.std.specs.Prelude.{◌≡◌, ◌+◌, ◌*◌, ◌/◌, ◌<◌, ◌≤◌, length};
ghost use Rattle.model.specs.Sharing.{join_gate, join_gates};
ghost use Rattle.pairs.specs.Lists.{area_size, left_at, Laid};
ghost use Rattle.pairs.specs.States.{state_of, Ready};
ghost use Rattle.factoring.specs.Turned.{joined_at, joined_to, carried, Went, Joined};

use crate::Factoring;
use pairs::lists::{left_at, node_word, put_left, put_pair, put_sig, sig_at, start_at};

// Joins the two signals 2 j and 2 j + 1 from place f on: new node v + j, at place f + j.
fn join_two(area: &mut [u32], f: usize, v: usize, j: usize)
    requires { (area_size ≤ length area.old) × (f + 2 * j + 1 < 2048) × (v + j < 512) }
    ensures { area.new ≡ joined_at area.old f v j }
{
    let k = f + 2 * j;
    let w = v + j;
    let a = sig_at(area, k);
    let b = sig_at(area, k + 1);
    put_pair(area, w, a, b);
    put_sig(area, f + j, node_word(w));
}

// Joins 2 h signals from place f on, two by two: new nodes from v on.
fn join_pairs(area: &mut [u32], f: usize, v: usize, h: usize)
    requires { (area_size ≤ length area.old) × (f + 2 * h ≤ 2048) × (v + h ≤ 512) }
    ensures { area.new ≡ joined_to area.old f v h }
{
    for j in 0..h {
        join_two(area, f, v, j);
    }
}

// Moves an odd last one of m signals behind the h new nodes.
fn carry(area: &mut [u32], f: usize, m: usize, h: usize)
    requires { (area_size ≤ length area.old) × (f + m ≤ 2048) × (2 * h ≤ m) }
    ensures { area.new ≡ carried area.old f m h }
{
    let e = 2 * h;
    if m == e {
        return;
    }
    let s = sig_at(area, f + e);
    put_sig(area, f + h, s);
}

impl Factoring {
    // One round over gate i; how many new nodes there are.
    fn join_round(self, area: &mut [u32], k: usize, i: usize) -> usize
        requires { Ready area.old self.gates self.nodes k (k + left_at area.old i / 2) × (i < self.gates) }
        ensures { Joined area.old area.new self.gates self.nodes k i result }
    {
        let f = start_at(area, i);
        let m = left_at(area, i);
        let h = m / 2;
        join_pairs(area, f, self.nodes + k, h);
        carry(area, f, m, h);
        put_left(area, i, (m - h) as u32);
        k + h
    }

    // Rounds until one signal is left in gate i.
    fn join_gate(self, area: &mut [u32], k: usize, i: usize) -> Option<usize>
        requires laid { Laid area.old self.gates }
        requires more { k ≤ self.room }
        requires gate { i < self.gates }
        ensures { Went area.old area.new self.gates self.nodes self.room result (join_gate (state_of area.old self.gates self.nodes k) i) }
    {
        let mut t = k;
        loop {
            let m = left_at(area, i);
            if m <= 1 {
                return Some(t);
            }
            if self.room - t < m / 2 {
                return None;
            }
            t = self.join_round(area, t, i);
        }
    }

    // Gate after gate.
    pub fn join_gates(self, area: &mut [u32], k: usize) -> Option<usize>
        requires laid { Laid area.old self.gates }
        requires more { k ≤ self.room }
        ensures { Went area.old area.new self.gates self.nodes self.room result (join_gates (state_of area.old self.gates self.nodes k) self.gates) }
    {
        let mut m = k;
        for i in 0..self.gates {
            m = self.join_gate(area, m, i)?;
        }
        Some(m)
    }
}
