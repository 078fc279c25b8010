// merge_dependencies: the inputs of a gate, each as it becomes, pushed at the end of the input table in `to`.
#![tactic(auto)]

ghost use Rattle.std.specs.Prelude.{◌≡◌, ◌+◌, ◌<◌, ◌≤◌, [], ◌∷◌, length};
ghost use Rattle.model.specs.Signal.{ref};
ghost use Rattle.model.specs.Sharing.{opened, merge_dependencies};
ghost use Rattle.tables.specs.Layout.{net_size, ins_at, gate_at};
ghost use Rattle.merge_dependencies.specs.Pushing.{Pushes, Reading, Opening, Becoming, opens, Merges};

use kinds::{Family, in_family, kind_of};
use signal::Signal;
use tables::layout::{count_at, first_at, input_at, kind_at, move_inputs, put_input};

// One word; the place behind it, if there is room.
fn push(to: &mut [u32], at: usize, s: u32) -> Option<usize>
    requires { (at ≤ 2048) × (net_size ≤ length to.old) }
    ensures { Pushes to.old to.new at (s ∷ []) result }
{
    if at < 2048 {
        put_input(to, at, s);
        return Some(at + 1);
    }
    None
}

// The inputs of node w.
fn open_node(to: &mut [u32], v: usize, w: usize, at: usize) -> Option<usize>
    requires { Reading to.old v w at }
    ensures { Pushes to.old to.new at (ins_at to.old w) result }
{
    let n = count_at(to, w);
    if 2048 - at < n {
        return None;
    }
    move_inputs(to, first_at(to, w), at, n);
    Some(at + n)
}

// Whether s is a plain node of the family whose inputs have room under the limit. `used` are the inputs so far and those left.
// stays: family and limit side by side, as share_logic.rs hands them on; a struct of the two would be taken apart in each function.
fn opens(to: &[u32], v: usize, f: Family, s: u32, used: usize, limit: u32) -> bool
    requires { Opening to.now v s used }
    ensures { result ≡ opens f (gate_at to.now) limit used s }
{
    let x = Signal { a: s };
    if !x.is_var() {
        return false;
    }
    let w = x.var() as usize;
    let plain = !x.is_inverted();
    plain & in_family(kind_of(kind_at(to, w)), f) & (used + count_at(to, w) <= limit as usize)
}

// What input s becomes.
fn merge_one(
    to: &mut [u32],
    v: usize,
    f: Family,
    s: u32,
    used: usize,
    limit: u32,
    at: usize,
) -> Option<usize>
    requires { Becoming to.old v s used at }
    ensures { Pushes to.old to.new at (opened f (gate_at to.old) limit used s (ref s)) result }
{
    if opens(to, v, f, s, used, limit) {
        return open_node(to, v, Signal { a: s }.var() as usize, at);
    }
    push(to, at, s)
}

// The inputs of node v of `from`, merged over the nodes below v of `to`.
#[tactic(auto, using(crate::proofs::Dependencies::gathers))]
pub fn merge_dependencies(
    from: &[u32],
    to: &mut [u32],
    v: usize,
    f: Family,
    limit: u32,
    start: usize,
) -> Option<usize>
    requires { Merges from.now to.old v start }
    ensures { Pushes to.old to.new start (merge_dependencies f (gate_at to.old) limit (ins_at from.now v) []) result }
{
    let first = first_at(from, v);
    let n = count_at(from, v);
    let mut at = start;
    for j in 0..n {
        let left = n - j - 1;
        let s = input_at(from, first + j);
        at = merge_one(to, v, f, s, at - start + left, limit, at)?;
    }
    Some(at)
}
