// Refusal 9: "an And2, And3 or n-ary And of two or more inputs lists a signal twice".
#![tactic(auto)]

ghost use Rattle.std.specs.Prelude.{◌≡◌};
ghost use Rattle.model.specs.Sharing.{repeats, any_repeats};
ghost use Rattle.tables.specs.Layout.{ins_at, nodes_of};
ghost use Rattle.refusals.specs.Numbers.{numbered, unless};
ghost use Rattle.repeats.specs.Reading.{Node, Nodes, repeats_refusal};

use kinds::Family;
use refusals::Refusal;
use tables::layout::{count_at, first_at, input_at};
use uses::count::takes;

// Whether node v lists a signal twice: leaves both loops at the first.
fn repeats(from: &[u32], v: usize) -> bool
    requires { Node from.now v }
    ensures { result ≡ repeats (ins_at from.now v) }
{
    let f = first_at(from, v);
    let n = count_at(from, v);
    let mut found = false;
    // stays: a flag and a labelled break, since document 01 names the form of this place
    'outer: for i in 0..n {
        let x = input_at(from, f + i);
        for j in i + 1..n {
            if input_at(from, f + j) == x {
                found = true;
                break 'outer;
            }
        }
    }
    found
}

// Whether one of the first n nodes meets 9.
pub fn any_repeats(from: &[u32], n: usize) -> bool
    requires { Nodes from.now n }
    ensures { result ≡ any_repeats (nodes_of from.now n) }
{
    for v in 0..n {
        if takes(from, Family::And, v) && repeats(from, v) {
            return true;
        }
    }
    false
}

// 9 where one of the first n nodes meets it.
pub fn repeats_refusal(from: &[u32], n: usize) -> Result<(), Refusal>
    requires { Nodes from.now n }
    ensures { numbered result ≡ unless (repeats_refusal (nodes_of from.now n)) tt }
{
    if any_repeats(from, n) {
        return Err(Refusal::Repeated);
    }
    Ok(())
}
