// Equal gates merged, as they are: 1; 2 to 7; 13; or the image of what is left, and the mapping, a word per old node.
ghost use Rattle.model.specs.Answers.{Kept2};
ghost use Rattle.model.specs.Entries.{dedup_outcome};
ghost use Rattle.refusals.specs.Numbers.{numbered};

use answers::Answer;
use lending::lend;
use network_work::duplicates::merge;

pub fn dedup(image: &[u8], out: &mut [u8], map: &mut [u32], a: &mut [u32], b: &mut [u32]) -> Answer
    ensures { Kept2 (dedup_outcome image.now out.old map.old a.old b.old) out.old map.old a.old b.old (numbered result) out.new map.new a.new b.new }
{
    lend(
        out,
        map,
        a,
        b,
        |out, map, a, b| merge(false, image, out, map, a, b),
    )
}
