// cleanup behind 1: 2 to 6; 13; or the image of what outputs reach, with the mapping.
ghost use Rattle.std.specs.Prelude.{length};
ghost use Rattle.tables.specs.Working.{Areas, Answered2};
ghost use Rattle.network_work.specs.Works.{cleanup_work};
ghost use Rattle.refusals.specs.Numbers.{numbered};

use answers::Answer;
use load::load;
use network_passes::cleanup_pass;

pub fn clean(image: &[u8], out: &mut [u8], map: &mut [u32], a: &mut [u32], b: &mut [u32]) -> Answer
    requires { Areas a.old b.old }
    ensures { Answered2 (cleanup_work image.now (length out.old) (length map.old)) out.old map.old (numbered result) out.new map.new }
{
    let c = load::<false>(image, a)?;
    cleanup_pass(a, b, c, out, map)
}
