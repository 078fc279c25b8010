// The search by a stack, at its start: flip-flops marked, and the gates that no gate names put on the stack.
#![tactic(auto)]

ghost use Rattle.std.specs.Prelude.{◌+◌, ◌<◌};
ghost use Rattle.remap.specs.Tables.{Sound};
ghost use Rattle.count_deps.specs.Counting.{Counted};
ghost use Rattle.stack_search.specs.Searching.{Live};
ghost use Rattle.stack_start.specs.Starting.{Started};

use kinds::is_flip_flop_code;
use tables::counts::Counts;
use tables::layout::kind_at;
use tables::scratch::{COUNT, MARK, STACK, put_word, word};

// A flip-flop counts as visited; a gate that no gate names is put on the stack.
fn start_gate(from: &[u32], to: &mut [u32], c: Counts, v: usize, sp: usize) -> usize
    requires { Started from.now to.old c v sp × (v < c.nodes) }
    ensures { Started from.now to.new c (v + 1) result }
{
    if is_flip_flop_code(kind_at(from, v)) {
        put_word(to, MARK, v, 1);
        return sp;
    }
    put_word(to, MARK, v, 0);
    if 0 < word(to, COUNT, v) {
        return sp;
    }
    put_word(to, STACK, sp, v as u32);
    sp + 1
}

#[tactic(auto, using(crate::proofs::Starts::starts))]
pub fn start(from: &[u32], to: &mut [u32], c: Counts) -> usize
    requires { Sound from.now c × Counted from.now to.old c }
    ensures { Live from.now to.new c result c.nodes }
{
    let mut sp: usize = 0;
    for v in 0..c.nodes {
        sp = start_gate(from, to, c, v, sp);
    }
    sp
}
