// share_logic.rs, Factoring: consume_binary_gates.
ghost use Rattle.std.specs.Prelude.{◌≤◌};
ghost use Rattle.model.specs.Sharing.{consume_binary_gates};
ghost use Rattle.pairs.specs.Lists.{Laid};
ghost use Rattle.pairs.specs.States.{state_of};
ghost use Rattle.factoring.specs.Turned.{Went};

use factoring::Factoring;

// Two passes, in case the first gives new gates with two left.
pub fn consume_binary_gates(p: Factoring, area: &mut [u32], k: usize) -> Option<usize>
    requires laid { Laid area.old p.gates }
    requires more { k ≤ p.room }
    ensures { Went area.old area.new p.gates p.nodes p.room result (consume_binary_gates (state_of area.old p.gates p.nodes k) p.gates) }
{
    let t = p.consume_twos(area, k)?;
    p.consume_twos(area, t)
}
