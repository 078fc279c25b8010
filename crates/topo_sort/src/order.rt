// Flip-flops, put before what the search has ordered.
ghost use Rattle.std.specs.Prelude.{◌+◌};
ghost use Rattle.stack_search.specs.Searching.{Flips};

use kinds::is_flip_flop_code;
use tables::counts::Counts;
use tables::layout::kind_at;
use tables::scratch::{ORDER, put_word};

// A flip-flop goes before what is ordered.
#[tactic(auto, using(crate::proofs::Flipped::flips))]
fn put_flip_flop(from: &[u32], to: &mut [u32], c: Counts, i: usize, pos: usize) -> usize
    requires { Flips from.now to.old c (i + 1) pos }
    ensures { Flips from.now to.new c i result }
{
    if is_flip_flop_code(kind_at(from, i)) {
        let next = pos - 1;
        put_word(to, ORDER, next, i as u32);
        return next;
    }
    pos
}

#[tactic(auto, using(crate::proofs::Flipped::flips))]
pub fn put_flip_flops(from: &[u32], to: &mut [u32], c: Counts, pos: usize) -> usize
    requires { Flips from.now to.old c c.nodes pos }
    ensures { Flips from.now to.new c 0 result }
{
    let mut at: usize = pos;
    for i in (0..c.nodes).rev() {
        at = put_flip_flop(from, to, c, i, at);
    }
    at
}
