// What every entry is around its work: refused with 1 where an area is short; else its work over the first 16,384 words of both areas, which
// are then cleared.
#![tactic(auto)]

ghost use Rattle.std.specs.Prelude.{◌≡◌, false, true};
ghost use Rattle.model.specs.Answers.{areas_short};
ghost use Rattle.refusals.specs.declared.Refusal.TheVariants.{Areas};
ghost use Rattle.tables.specs.Working.{Cleared};
ghost use Rattle.lending.specs.Lending.{Takes, Gives, Untouched};

use answers::Answer;
use refusals::Refusal;
use tables::layout::{areas_short, clear_areas};

// The work gets the buffer for the result, what is lent beside it (a mapping or a state), and its parts of the areas.
pub fn lend<T, F>(out: &mut [u8], second: &mut [T], a: &mut [u32], b: &mut [u32], work: F) -> Answer
where
    F: FnOnce(&mut [u8], &mut [T], &mut [u32], &mut [u32]) -> Answer,
    requires { areas_short a.old b.old ≡ false → Takes (F.pre work) out.old second.old a.old b.old }
    ensures short { areas_short a.old b.old ≡ true → (result ≡ Err Areas) × Untouched out.old second.old a.old b.old out.new second.new a.new b.new }
    ensures gives { areas_short a.old b.old ≡ false → Gives (F.post work) out.old second.old a.old b.old result out.new second.new }
    ensures cleared { areas_short a.old b.old ≡ false → Cleared a.old b.old a.new b.new }
{
    if areas_short(a, b) {
        return Err(Refusal::Areas);
    }
    let answer = work(out, second, &mut a[..16384], &mut b[..16384]);
    clear_areas(a, b);
    answer
}
