// The body of an image behind its frame: refusals 4 to 7.
#![tactic(auto)]

ghost use Rattle.std.specs.Prelude.{◌≡◌, ◌≤◌};
ghost use Rattle.model.specs.Image.{words};
ghost use Rattle.refusals.specs.Numbers.{numbered, unless};
ghost use Rattle.image_body.specs.Numbers.{body_number};

use refusals::Refusal;

// 4 to 6, and 7 where `strict` asks for it.
pub fn check_body(
    body: &[u8],
    inputs: u32,
    nodes: u32,
    outs: u32,
    strict: bool,
) -> Result<(), Refusal>
    requires { (nodes ≤ 512) × (outs ≤ 64) }
    ensures { numbered result ≡ unless (body_number strict inputs nodes outs (words body.now)) tt }
{
    let count = outs as usize;
    let end = body.len() / 4;
    let lim = end.checked_sub(count + 4).ok_or(Refusal::Layout)?;
    let t = records::layout(body, nodes, lim).ok_or(Refusal::Layout)?;
    if 2048 < t {
        return Err(Refusal::GateInputs);
    }
    let gates = wiring::of_records(body, inputs, nodes);
    let outputs = wiring::reach(body, lim, count, inputs);
    if !(gates.named & (outputs <= nodes)) {
        return Err(Refusal::Absent);
    }
    if strict & !gates.sorted {
        return Err(Refusal::Unsorted);
    }
    Ok(())
}
