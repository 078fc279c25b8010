// What the entries of share_logic.rs do behind 1, over both areas: 2 to 7; what refuses a stage; 13; or the image of the network that the
// last stage left.
ghost use Rattle.std.specs.Prelude.{length};
ghost use Rattle.refusals.specs.Numbers.{numbered};
ghost use Rattle.tables.specs.Working.{Areas, Answered};
ghost use Rattle.sharing.specs.Works.{flatten_pass, factor_pass, share_pass, imaged_work};

use answers::Answer;
use factor_nary::factor_nary;
use flatten_nary::flatten_nary;
use load::load;
use repeats::repeats_refusal;
use write::write;

pub fn flatten(image: &[u8], limit: u32, out: &mut [u8], a: &mut [u32], b: &mut [u32]) -> Answer
    requires { Areas a.old b.old }
    ensures { Answered (imaged_work (flatten_pass limit) image.now (length out.old)) out.old (numbered result) out.new }
{
    let read = load::<true>(image, a)?;
    let flat = flatten_nary(a, b, read, limit)?;
    write(b, flat, out)
}

pub fn factor(image: &[u8], out: &mut [u8], a: &mut [u32], b: &mut [u32]) -> Answer
    requires { Areas a.old b.old }
    ensures { Answered (imaged_work factor_pass image.now (length out.old)) out.old (numbered result) out.new }
{
    let read = load::<true>(image, a)?;
    repeats_refusal(a, read.nodes)?;
    let factored = factor_nary(a, b, read)?;
    write(a, factored, out)
}

// share_logic: flatten, then factor.
pub fn share(image: &[u8], limit: u32, out: &mut [u8], a: &mut [u32], b: &mut [u32]) -> Answer
    requires { Areas a.old b.old }
    ensures { Answered (imaged_work (share_pass limit) image.now (length out.old)) out.old (numbered result) out.new }
{
    let read = load::<true>(image, a)?;
    let flat = flatten_nary(a, b, read, limit)?;
    let shared = factor_nary(b, a, flat)?;
    write(b, shared, out)
}
