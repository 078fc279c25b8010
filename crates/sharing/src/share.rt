// share: 1; 2 to 7; 10; 11 and 12; 13; or the image of the shared network.
ghost use Rattle.model.specs.Answers.{Kept};
ghost use Rattle.model.specs.Entries.{share_outcome};
ghost use Rattle.refusals.specs.Numbers.{numbered};

use crate::work;
use answers::Answer;
use lending::lend;

pub fn share(image: &[u8], limit: u32, out: &mut [u8], a: &mut [u32], b: &mut [u32]) -> Answer
    ensures { Kept (share_outcome image.now out.old a.old b.old limit) out.old a.old b.old (numbered result) out.new a.new b.new }
{
    let mut nothing = [0u8; 0];
    lend(out, &mut nothing, a, b, |out, _, a, b| {
        work::share(image, limit, out, a, b)
    })
}
