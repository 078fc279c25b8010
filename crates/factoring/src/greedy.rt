// The pairs of a pass: one round over the gates with two left, and the best pair while one is left.
ghost use Rattle.std.specs.Prelude.{◌<◌, ◌≤◌};
ghost use Rattle.model.specs.Sharing.{binaries, all_pairs};
ghost use Rattle.pairs.specs.Lists.{Laid};
ghost use Rattle.pairs.specs.States.{state_of};
ghost use Rattle.factoring.specs.Turned.{binary_at, Went};

use crate::Factoring;
use best_pair::find_best_pair;
use pairs::lists::{left_at, sig_at, start_at};
use replacing::replace_pair;

impl Factoring {
    // The pair of gate i, smaller word first, where two signals are left.
    fn consume_at(self, area: &mut [u32], k: usize, i: usize) -> Option<usize>
        requires laid { Laid area.old self.gates }
        requires more { k ≤ self.room }
        requires gate { i < self.gates }
        ensures { Went area.old area.new self.gates self.nodes self.room result (binary_at (state_of area.old self.gates self.nodes k) i) }
    {
        if left_at(area, i) != 2 {
            return Some(k);
        }
        if self.room <= k {
            return None;
        }
        let f = start_at(area, i);
        let a = sig_at(area, f);
        let b = sig_at(area, f + 1);
        replace_pair(area, self.gates, self.nodes, k, a.min(b), a.max(b));
        Some(k + 1)
    }

    // One pass over the gates; how many new nodes there are, unless there is no room for them.
    pub fn consume_twos(self, area: &mut [u32], k: usize) -> Option<usize>
        requires laid { Laid area.old self.gates }
        requires more { k ≤ self.room }
        ensures { Went area.old area.new self.gates self.nodes self.room result (binaries (state_of area.old self.gates self.nodes k) self.gates) }
    {
        let mut m = k;
        for i in 0..self.gates {
            m = self.consume_at(area, m, i)?;
        }
        Some(m)
    }

    // While a pair is left, the best one.
    pub fn consume_pairs(self, area: &mut [u32], k: usize) -> Option<usize>
        requires laid { Laid area.old self.gates }
        requires more { k ≤ self.room }
        ensures { Went area.old area.new self.gates self.nodes self.room result (all_pairs (state_of area.old self.gates self.nodes k)) }
    {
        let mut m = k;
        while let Some((a, b)) = find_best_pair(area, self.gates) {
            if self.room <= m {
                return None;
            }
            replace_pair(area, self.gates, self.nodes, m, a, b);
            m += 1;
        }
        Some(m)
    }
}
