// Equal neighbours dropped from a list, what is left standing at its front: what gates.rs does to a vector in order, for make_andn and
// make_xorn.
#![tactic(auto)]

ghost use Rattle.std.specs.Prelude.{◌≡◌, ◌≤◌, ◌<◌, length, drop};
ghost use Rattle.model.specs.Normal.{uniq, cancel};
ghost use Rattle.neighbours.specs.Fronts.{twins, fewer, Front};

// Whether word i has an equal neighbour behind it.
#[tactic(auto, using(crate::proofs::Walks::twin_tests))]
fn has_twin(list: &[u32], i: usize) -> bool
    requires { i < length list.now }
    ensures { result ≡ twins (drop i list.now) }
{
    i + 1 < list.len() && list[i] == list[i + 1]
}

// Of two equal neighbours drops the first, or both.
#[tactic(auto, using(crate::proofs::Walks::drops))]
fn drop_twins<const GONE: usize>(list: &mut [u32]) -> usize
    requires { (1 ≤ GONE) × (GONE ≤ 2) }
    ensures { Front (fewer GONE list.old) list.new result }
{
    let mut k: usize = 0;
    let mut i: usize = 0;
    // stays: a `for` cannot pass over both words of a pair
    while i < list.len() {
        if has_twin(list, i) {
            i += GONE;
            continue;
        }
        list[k] = list[i];
        k += 1;
        i += 1;
    }
    k
}

// Keeps one of equal neighbours.
#[tactic(auto, unfolding(crate::specs::Fronts::fewer))]
pub fn dedup(list: &mut [u32]) -> usize
    ensures { Front (uniq list.old) list.new result }
{
    drop_twins::<1>(list)
}

// Drops equal neighbours in pairs.
#[tactic(auto, unfolding(crate::specs::Fronts::fewer))]
pub fn cancel(list: &mut [u32]) -> usize
    ensures { Front (cancel list.old) list.new result }
{
    drop_twins::<2>(list)
}
