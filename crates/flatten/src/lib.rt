// share_logic.rs, flatten_nary before its cleanup: each And or Xor gate merged with the gates of its family that it names.
#![tactic(auto)]

ghost use Rattle.tables.specs.Holding.{network_of};
ghost use Rattle.flatten.specs.Flattening.{Mergeable, Merged, Laid};

use flatten_gate::flatten_gate;
use refusals::Refusal;
use tables::counts::Counts;
use tables::layout::copy_outputs;

// The gates in order, each over those already put, if their inputs have room.
fn flatten_nodes(from: &[u32], to: &mut [u32], counts: Counts, limit: u32) -> Result<(), Refusal>
    requires { Mergeable from.now to.old counts }
    ensures { Laid (network_of from.now counts) limit to.new result }
{
    let mut at: usize = 0;
    for v in 0..counts.nodes {
        at = flatten_gate(from, to, v, limit, at).ok_or(Refusal::Flattened)?;
    }
    Ok(())
}

// The flattened network in `to`, unless its gate inputs pass 2,048.
pub fn flatten_gates(
    from: &[u32],
    to: &mut [u32],
    counts: Counts,
    limit: u32,
) -> Result<(), Refusal>
    requires { Mergeable from.now to.old counts }
    ensures { Merged (network_of from.now counts) limit to.new counts result }
{
    flatten_nodes(from, to, counts, limit)?;
    copy_outputs(from, to, counts.outs);
    Ok(())
}
