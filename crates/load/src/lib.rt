// Loading: an image checked, and its network put into an area.
#![tactic(auto)]

ghost use Rattle.std.specs.Prelude.{◌≤◌, length};
ghost use Rattle.tables.specs.Layout.{net_size};
ghost use Rattle.image.specs.Reader.{number_of};
ghost use Rattle.load.specs.Images.{AcceptedFrame, Counted, Read};

use image::Frame;
use load_body::load_body;
use refusals::Refusal;
use tables::counts::Counts;

// The body behind the prefix of an image that was accepted.
fn load_frame(img: &[u8], f: Frame, to: &mut [u32]) -> Counts
    requires { AcceptedFrame img.now f to.old }
    ensures { Counted img.now to.new result }
{
    let counts = Counts {
        inputs: f.inputs as usize,
        nodes: f.nodes as usize,
        outs: f.outs as usize,
    };
    load_body(&img[f.start..], to, counts);
    counts
}

// The network of the image in the area: 2 to 6, and 7 where it has to be sorted.
pub fn load<const SORTED: bool>(img: &[u8], to: &mut [u32]) -> Result<Counts, Refusal>
    requires { net_size ≤ length to.old }
    ensures { Read (number_of SORTED img.now) img.now to.new result }
{
    let f = image::check::<SORTED>(img)?;
    Ok(load_frame(img, f, to))
}
