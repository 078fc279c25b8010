// The gate sought among the new nodes: where it stands, or put behind them.
ghost use Rattle.std.specs.Prelude.{◌≡◌, ◌+◌, ◌≤◌, ◌<◌, length};
ghost use Rattle.tables.specs.Layout.{cell};
ghost use Rattle.tables.specs.Building.{put_inputs};
ghost use Rattle.same_gate.specs.Listed.{list_base, listed};
ghost use Rattle.placing.specs.States.{Room, Appended, Placed};

use crate::Built;
use lookup::chain::{bucket, join};
use lookup::find::find_gate;
use same_gate::{LIST, Sought};
use tables::layout::{put_gate, put_input, put_table};
use tables::scratch::word;

// What is built with the gate in it, and the node that it is.
#[derive(Clone, Copy)]
pub struct Spot {
    pub built: Built,
    pub node: usize,
}

// The n words of the list, as the input words from `at` on.
// stays: no plainer by copy_within, which would have to know where the input words stand; only `tables` does.
fn append_inputs(to: &mut [u32], at: usize, n: usize)
    requires { (16384 ≤ length to.old) × (at + n ≤ 2048) }
    ensures { to.new ≡ put_inputs to.old at (cell to.old list_base) n }
{
    for j in 0..n {
        let s = word(to, LIST, j);
        put_input(to, at + j, s);
    }
}

// The gate sought as a new node, of bucket h.
fn append(to: &mut [u32], b: Built, h: usize, g: Sought) -> Built
    requires { Room to.old b g.n × (h < 256) }
    ensures { Appended to.old to.new b h g result }
{
    append_inputs(to, b.fanin, g.n);
    put_gate(to, b.nodes, g.kind, b.fanin as u32, g.n as u32);
    put_table(to, b.nodes, g.low, g.high);
    join(to, b.nodes, h);
    Built {
        nodes: b.nodes + 1,
        fanin: b.fanin + g.n,
    }
}

pub fn place(to: &mut [u32], b: Built, g: Sought) -> Spot
    requires { Room to.old b g.n }
    ensures { Placed to.old to.new b (listed to.old g) result }
{
    let h = bucket(to, g);
    match find_gate(to, b.nodes, h, g) {
        Some(w) => Spot { built: b, node: w },
        None => {
            let more = append(to, b, h, g);
            Spot {
                built: more,
                node: b.nodes,
            }
        }
    }
}
