// The flip-flops' inputs, translated when every node is handled.
ghost use Rattle.std.specs.Prelude.{◌≡◌, ◌≤◌, length};
ghost use Rattle.dedup.specs.States.{turned};

use tables::layout::{input_at, put_input};
use translation::translate;

// The flip-flops were built first: their inputs are the first n input words. They are not compared again.
pub fn remap_cells(to: &mut [u32], n: usize)
    requires { (16384 ≤ length to.old) × (n ≤ 2048) }
    ensures { to.new ≡ turned to.old n }
{
    for k in 0..n {
        let s = translate(to, input_at(to, k));
        put_input(to, k, s);
    }
}
