// The gate under work: its inputs at the front of a list in the area that is written.
ghost use Rattle.std.specs.Prelude.{◌≡◌, ◌≤◌, length, take};
ghost use Rattle.model.specs.Normal.{gate_of};
ghost use Rattle.gates.specs.Normals.{normal_of, Shaped};
ghost use Rattle.tables.specs.Layout.{span};
ghost use Rattle.translation.specs.Tables.{tr_of};
ghost use Rattle.placing.specs.Lists.{of_flip_flops, looked_up, gathered, norm_of, Gathers};

use canonical_gates::make_canonical;
use gates::Normalization;
use kinds::Kind;
use same_gate::LIST;
use tables::layout::input_at;
use tables::scratch::put_word;
use translation::translate;

// What a sweep over the old nodes merges: flip-flops, which are looked up by their old signals, or gates, by their translated ones.
#[derive(Clone, Copy)]
pub enum Sweep {
    FlipFlops,
    Gates,
}

// The signal that a gate is looked up by.
fn looked_up(to: &[u32], s: u32, by: Sweep) -> u32
    requires { span ≤ length to.now }
    ensures { result ≡ looked_up (of_flip_flops by) (tr_of to.now) s }
{
    match by {
        Sweep::FlipFlops => s,
        Sweep::Gates => translate(to, s),
    }
}

// The n inputs from `first` on, as the gate is looked up by them.
pub fn gather(from: &[u32], to: &mut [u32], first: usize, n: usize, by: Sweep)
    requires { Gathers from.now to.old first n }
    ensures { to.new ≡ gathered from.now to.old (of_flip_flops by) first n }
{
    for j in 0..n {
        let s = looked_up(to, input_at(from, first + j), by);
        put_word(to, LIST, j, s);
    }
}

// The normal form of the gate, or the gate as it is.
// stays: no plainer without `canonical`, dedup's own parameter, which its callers choose; a closure would need a law beside it.
pub fn normalize(kind: Kind, list: &mut [u32], n: usize, canonical: bool) -> Normalization
    requires { Shaped kind list.old n }
    ensures { normal_of result list.new ≡ norm_of canonical (gate_of kind (take n list.old)) }
{
    if canonical {
        return make_canonical(kind, list, n);
    }
    Normalization::Node {
        kind: kind,
        count: n,
        inv: false,
    }
}
