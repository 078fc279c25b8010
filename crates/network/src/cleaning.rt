// cleanup: 1; 2 to 6; 13; or the image of what outputs reach, with the mapping.
ghost use Rattle.model.specs.Answers.{Kept2};
ghost use Rattle.model.specs.Entries.{cleanup_outcome};
ghost use Rattle.refusals.specs.Numbers.{numbered};

use answers::Answer;
use lending::lend;
use network_work::cleaning::clean;

pub fn cleanup(
    image: &[u8],
    out: &mut [u8],
    map: &mut [u32],
    a: &mut [u32],
    b: &mut [u32],
) -> Answer
    ensures { Kept2 (cleanup_outcome image.now out.old map.old a.old b.old) out.old map.old a.old b.old (numbered result) out.new map.new a.new b.new }
{
    lend(
        out,
        map,
        a,
        b,
        |out, map, a, b| clean(image, out, map, a, b),
    )
}
