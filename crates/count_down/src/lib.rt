// The inputs of a visited gate counted down: a node whose count comes to zero is put on the stack.
#![tactic(auto)]

ghost use Rattle.count_down.specs.Lowering.{CanDown, Downs, down_one, down_ins, Lowered};

use remap::nodes::{is_node, node_of};
use tables::layout::input_at;
use tables::scratch::{COUNT, STACK, put_word, word};

// The node that s names is counted down, and put on the stack at zero.
#[tactic(auto, using(crate::proofs::Downs::lowers))]
fn down_one(to: &mut [u32], s: u32, sp: usize) -> usize
    requires { CanDown to.old s sp }
    ensures { Lowered (down_one to.old s sp) to.new result }
{
    if !is_node(s) {
        return sp;
    }
    let d = node_of(s);
    let n = word(to, COUNT, d);
    if 1 < n {
        put_word(to, COUNT, d, n - 1);
        return sp;
    }
    put_word(to, COUNT, d, 0);
    put_word(to, STACK, sp, d as u32);
    sp + 1
}

#[tactic(auto, using(crate::proofs::Downs::downs))]
pub fn count_down(from: &[u32], to: &mut [u32], f: usize, n: usize, sp: usize) -> usize
    requires { Downs from.now to.old f n sp }
    ensures { Lowered (down_ins from.now f to.old sp n) to.new result }
{
    let mut top: usize = sp;
    for j in 0..n {
        top = down_one(to, input_at(from, f + j), top);
    }
    top
}
