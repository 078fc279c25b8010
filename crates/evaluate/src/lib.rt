// One cycle of a network that stands in a work area: its outputs' bytes, and the state bytes of its flip-flops.
#![tactic(auto)]

ghost use Rattle.std.specs.Prelude.{◌≡◌, length};
ghost use Rattle.model.specs.Entries.{cycle_outcome};
ghost use Rattle.tables.specs.Holding.{network_of};
ghost use Rattle.tables.specs.Working.{Answered2};
ghost use Rattle.evaluate.specs.Passes.{Putting};
ghost use Rattle.flip_flops.specs.Storing.{Passing};
ghost use Rattle.evaluate.specs.Cycle.{shorter, Runs, Ran};
ghost use Rattle.refusals.specs.Numbers.{numbered};

use crate::passes::{forward, put_outputs};
use answers::Answer;
use cycle_checks::{state_above, take_inputs};
use flip_flops::put_states;
use refusals::Refusal;
use signal_values::VALUES;
use tables::counts::Counts;
use tables::scratch::put_word;

pub mod passes;

// Lengths lent for inputs, state and outputs, of which one is too short.
fn short(counts: Counts, inputs: usize, state: usize, outputs: usize) -> bool
    ensures { result ≡ shorter counts inputs state outputs }
{
    (outputs < counts.outs) | (inputs < counts.inputs) | (state < counts.nodes)
}

// The cycle itself, once the inputs' values are put down.
fn cycle(from: &[u32], to: &mut [u32], counts: Counts, state: &mut [u8], outputs: &mut [u8])
    requires { Passing from.now to.old state.old counts.nodes × Putting from.now to.old outputs.old counts.outs }
    ensures { Ran from.now to.old counts state.old outputs.old state.new outputs.new }
{
    forward(from, to, state, counts.nodes);
    put_outputs(from, to, outputs, counts.outs);
    put_states(from, to, state, counts.nodes);
}

// The network in `from`, sorted; the values of the cycle go to `to`, behind a network. 13, 14, or the cycle.
pub fn evaluate(
    from: &[u32],
    to: &mut [u32],
    counts: Counts,
    inputs: &[u8],
    state: &mut [u8],
    outputs: &mut [u8],
) -> Answer
    requires { Runs from.now to.old counts }
    ensures { Answered2 (cycle_outcome (network_of from.now counts) inputs.now state.old (length outputs.old)) outputs.old state.old (numbered result) outputs.new state.new }
{
    if short(counts, inputs.len(), state.len(), outputs.len()) {
        return Err(Refusal::Room);
    }
    put_word(to, VALUES, 0, 0);
    let above = take_inputs(to, inputs, counts.inputs);
    if above | state_above(from, state, counts.nodes) {
        return Err(Refusal::Bytes);
    }
    cycle(from, to, counts, state, outputs);
    Ok(0)
}
