// replace_pair: both signals taken from every gate that holds them, the new node put last.
#![tactic(auto)]

ghost use Rattle.std.specs.Prelude.{◌≡◌, ◌+◌};
ghost use Rattle.pairs.specs.Lists.{Laid};
ghost use Rattle.replacing.specs.Swapped.{replaced_all};
ghost use Rattle.pairs.specs.States.{Ready, Replaced};

use pairs::lists::{node_word, put_pair};
use replace_in::replace_in;

// Takes a and b from every gate holding both, and puts z last in each.
fn swap_all(area: &mut [u32], g: usize, a: u32, b: u32, z: u32)
    requires { Laid area.old g }
    ensures { area.new ≡ replaced_all area.old g a b z }
{
    for i in 0..g {
        replace_in(area, g, i, a, b, z);
    }
}

// The pair of a and b is new node n + k, in place of both wherever a gate holds both.
pub fn replace_pair(area: &mut [u32], g: usize, n: usize, k: usize, a: u32, b: u32)
    requires { Ready area.old g n k (k + 1) }
    ensures { Replaced area.old area.new g n k a b }
{
    let v = n + k;
    put_pair(area, v, a, b);
    swap_all(area, g, a, b, node_word(v));
}
