// The search by a stack: the last pushed is the first taken, and a node comes after all the gates that name it.
#![tactic(auto)]

ghost use Rattle.std.specs.Prelude.{◌<◌};
ghost use Rattle.stack_search.specs.Searching.{Live, Turned, Flips};

use count_down::count_down;
use tables::counts::Counts;
use tables::layout::{count_at, first_at};
use tables::scratch::{MARK, ORDER, STACK, number, put_word, word};

// Where the stack ends, and where the order begins.
#[derive(Clone, Copy)]
pub struct Turn {
    pub sp: usize,
    pub pos: usize,
}

// The node on top is taken off, and visited if it was not.
fn visit(from: &[u32], to: &mut [u32], c: Counts, t: Turn) -> Turn
    requires { Live from.now to.old c t.sp t.pos × (0 < t.sp) }
    ensures { Turned from.now to.old to.new c t.sp result }
{
    let top = t.sp - 1;
    let v = number(to, STACK, top);
    if 0 < word(to, MARK, v) {
        return Turn {
            sp: top,
            pos: t.pos,
        };
    }
    put_word(to, MARK, v, 1);
    let next = t.pos - 1;
    put_word(to, ORDER, next, v as u32);
    let end = count_down(from, to, first_at(from, v), count_at(from, v), top);
    Turn { sp: end, pos: next }
}

// The order's table is filled from pos down; where the order then begins.
pub fn visit_all(from: &[u32], to: &mut [u32], c: Counts, sp: usize, pos: usize) -> usize
    requires { Live from.now to.old c sp pos }
    ensures { Flips from.now to.new c c.nodes result }
{
    let mut t = Turn { sp: sp, pos: pos };
    while 0 < t.sp {
        t = visit(from, to, c, t);
    }
    t.pos
}
