// sort: 1; 2 to 6; 8, a combinational loop; 13; or the sorted network's image, with the mapping.
ghost use Rattle.model.specs.Answers.{Kept2};
ghost use Rattle.model.specs.Entries.{sort_outcome};
ghost use Rattle.refusals.specs.Numbers.{numbered};

use answers::Answer;
use lending::lend;
use network_work::sorting;

pub fn sort(image: &[u8], out: &mut [u8], map: &mut [u32], a: &mut [u32], b: &mut [u32]) -> Answer
    ensures { Kept2 (sort_outcome image.now out.old map.old a.old b.old) out.old map.old a.old b.old (numbered result) out.new map.new a.new b.new }
{
    lend(
        out,
        map,
        a,
        b,
        |out, map, a, b| sorting::sort(image, out, map, a, b),
    )
}
