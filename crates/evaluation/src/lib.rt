// The public entry of evaluation: 1; 2 to 7; 13; 14; or one cycle, by bytes: one for each input, a state byte for each node. A byte for each output is
// written, and the state bytes of flip-flops only.
#![tactic(auto)]

ghost use Rattle.std.specs.Prelude.{◌≤◌, length};
ghost use Rattle.model.specs.Answers.{Kept2};
ghost use Rattle.model.specs.Entries.{evaluate_outcome};
ghost use Rattle.refusals.specs.Numbers.{numbered};
ghost use Rattle.tables.specs.Working.{Answered2};
ghost use Rattle.evaluation.specs.Works.{evaluate_work};

use answers::Answer;
use lending::lend;
use load::load;

fn work(
    image: &[u8],
    inputs: &[u8],
    state: &mut [u8],
    outputs: &mut [u8],
    a: &mut [u32],
    b: &mut [u32],
) -> Answer
    requires { (16384 ≤ length a.old) × (16384 ≤ length b.old) }
    ensures { Answered2 (evaluate_work image.now inputs.now state.old (length outputs.old)) outputs.old state.old (numbered result) outputs.new state.new }
{
    let counts = load::<true>(image, a)?;
    evaluate::evaluate(a, b, counts, inputs, state, outputs)
}

pub fn evaluate(
    image: &[u8],
    inputs: &[u8],
    state: &mut [u8],
    outputs: &mut [u8],
    a: &mut [u32],
    b: &mut [u32],
) -> Answer
    ensures { Kept2 (evaluate_outcome image.now inputs.now state.old outputs.old a.old b.old) outputs.old state.old a.old b.old (numbered result) outputs.new state.new a.new b.new }
{
    lend(
        outputs,
        state,
        a,
        b,
        |outputs, state, a, b| work(image, inputs, state, outputs, a, b),
    )
}
