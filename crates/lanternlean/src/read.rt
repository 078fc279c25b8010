// Plain reading: 1; 2 to 6; 13; or the image of what was read, the given one without its prefix.
ghost use Rattle.std.specs.Prelude.{◌≤◌, length};
ghost use Rattle.model.specs.Answers.{Kept};
ghost use Rattle.refusals.specs.Numbers.{numbered};
ghost use Rattle.model.specs.Entries.{read_outcome};
ghost use Rattle.tables.specs.Working.{Answered};
ghost use Rattle.lanternlean.specs.Works.{read_work};

use answers::Answer;
use lending::lend;
use load::load;
use write::write;

fn work(image: &[u8], out: &mut [u8], a: &mut [u32]) -> Answer
    requires { 16384 ≤ length a.old }
    ensures { Answered (read_work image.now (length out.old)) out.old (numbered result) out.new }
{
    let counts = load::<false>(image, a)?;
    write(a, counts, out)
}

pub fn read(image: &[u8], out: &mut [u8], a: &mut [u32], b: &mut [u32]) -> Answer
    ensures { Kept (read_outcome image.now out.old a.old b.old) out.old a.old b.old (numbered result) out.new a.new b.new }
{
    let mut nothing = [0u8; 0];
    lend(out, &mut nothing, a, b, |out, _, a, _| work(image, out, a))
}
