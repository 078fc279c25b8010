// One old node of dedup: its gate gathered, normalized and looked up.
#![tactic(auto)]

ghost use Rattle.std.specs.Prelude.{◌+◌, ◌*◌, ◌^◌, drop};
ghost use Rattle.tables.specs.Layout.{gate_at};
ghost use Rattle.gates.specs.Normals.{normal_of};
ghost use Rattle.same_gate.specs.Listed.{list_base};
ghost use Rattle.translation.specs.Tables.{tr_of};
ghost use Rattle.placing.specs.Lists.{of_flip_flops, norm_of, with_table};
ghost use Rattle.placing.specs.States.{asked_gate, Settles, Asks, Did};

use gates::Normalization;
use kinds::kind_of;
use placing::Built;
use placing::list::{Sweep, gather, normalize};
use placing::place::place;
use same_gate::{LIST, Sought};
use signal::Signal;
use tables::layout::{count_at, first_at, high_at, kind_at, low_at};
use tables::scratch::{TR, put_word};

// A copied signal goes to the mapping, else the gate is looked up, an inversion going onto its signal.
fn settle(to: &mut [u32], v: usize, b: Built, r: Normalization, low: u32, high: u32) -> Built
    requires { Settles to.old v b r }
    ensures { Did to.old to.new v b (with_table (low + 2 ^ 32 * high) (normal_of r (drop list_base to.old))) result }
{
    match r {
        Normalization::Copy(s) => {
            put_word(to, TR, v, s.a);
            b
        }
        Normalization::Node { kind, count, inv } => {
            let g = Sought {
                kind: u32::from(kind),
                n: count,
                low: low,
                high: high,
            };
            let p = place(to, b, g);
            let s = Signal::from_var(p.node as u32) ^ inv;
            put_word(to, TR, v, s.a);
            p.built
        }
    }
}

// Old node v, a flip-flop by its old signals, a gate by its translated ones.
pub fn dedup_node(
    from: &[u32],
    to: &mut [u32],
    v: usize,
    b: Built,
    by: Sweep,
    canonical: bool,
) -> Built
    requires { Asks from.now to.old v b }
    ensures { Did to.old to.new v b (norm_of canonical (asked_gate (of_flip_flops by) (tr_of to.old) (gate_at from.now v))) result }
{
    let n = count_at(from, v);
    gather(from, to, first_at(from, v), n, by);
    let kind = kind_of(kind_at(from, v));
    let r = normalize(kind, &mut to[LIST..], n, canonical);
    settle(to, v, b, r, low_at(from, v), high_at(from, v))
}
