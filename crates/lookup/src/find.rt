// The first new node whose gate is the one sought.
ghost use Rattle.std.specs.Prelude.{◌≡◌, ◌+◌, ◌<◌, length};
ghost use Rattle.model.specs.Network.{find_gate};
ghost use Rattle.tables.specs.Layout.{nodes_of, cell};
ghost use Rattle.same_gate.specs.Listed.{listed};
ghost use Rattle.lookup.specs.Lists.{as_option, counted};
ghost use Rattle.lookup.specs.Chains.{Seeks};

use crate::chain::{HEAD, LINK};
use same_gate::{Sought, same_gate};
use tables::scratch::number;

// The node that word i of a table of the chains names, counted from 1.
fn node_at(to: &[u32], base: usize, i: usize) -> Option<usize>
    requires { base + i < length to.now }
    ensures { counted result ≡ cell to.now base i }
{
    number(to, base, i).checked_sub(1)
}

// Down the chain of bucket h: the last one met that is the gate is the first.
pub fn find_gate(to: &[u32], nodes: usize, h: usize, g: Sought) -> Option<usize>
    requires { Seeks to.now nodes h (listed to.now g) }
    ensures { as_option result ≡ find_gate (listed to.now g) (nodes_of to.now nodes) }
{
    let mut found: Option<usize> = None;
    let mut at = node_at(to, HEAD, h);
    while let Some(w) = at {
        if same_gate(to, w, g) {
            found = Some(w);
        }
        at = node_at(to, LINK, w);
    }
    found
}
