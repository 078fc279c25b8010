// share_logic.rs, one step of flatten_nary: a gate put behind those in `to`: merged if it is an And or a Xor, else as it is.
#![tactic(auto)]

ghost use Rattle.model.specs.Sharing.{flat_by, flat_gate};
ghost use Rattle.tables.specs.Layout.{gate_at};
ghost use Rattle.merge_dependencies.specs.Pushing.{Merges};
ghost use Rattle.flatten_gate.specs.Gates.{Puts, Flattens, Grew};

use copying::copy_gate;
use kinds::{Family, in_family, kind_of, wide};
use merge_dependencies::merge_dependencies;
use tables::layout::{count_at, kind_at, put_gate, put_table};

// Node v as it is; the place behind its inputs, if they have room.
fn push_gate(from: &[u32], to: &mut [u32], v: usize, at: usize) -> Option<usize>
    requires { Puts from.now to.old v at }
    ensures { Grew to.old to.new v at (gate_at from.now v) result }
{
    let n = count_at(from, v);
    if 2048 - at < n {
        return None;
    }
    copy_gate(from, to, v, at);
    Some(at + n)
}

// Node v merged, as the family's n-ary gate.
fn merge_gate(
    from: &[u32],
    to: &mut [u32],
    v: usize,
    f: Family,
    limit: u32,
    at: usize,
) -> Option<usize>
    requires { Merges from.now to.old v at }
    ensures { Grew to.old to.new v at (flat_by f (gate_at to.old) limit (gate_at from.now v)) result }
{
    let end = merge_dependencies(from, to, v, f, limit, at)?;
    put_gate(to, v, u32::from(wide(f)), at as u32, (end - at) as u32);
    put_table(to, v, 0, 0);
    Some(end)
}

pub fn flatten_gate(from: &[u32], to: &mut [u32], v: usize, limit: u32, at: usize) -> Option<usize>
    requires { Flattens from.now to.old v at }
    ensures { Grew to.old to.new v at (flat_gate (gate_at to.old) limit (gate_at from.now v)) result }
{
    let k = kind_of(kind_at(from, v));
    if in_family(k, Family::And) {
        return merge_gate(from, to, v, Family::And, limit, at);
    }
    if in_family(k, Family::Xor) {
        return merge_gate(from, to, v, Family::Xor, limit, at);
    }
    push_gate(from, to, v, at)
}
