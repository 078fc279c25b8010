// The door: an image's refusals 2 to 7, each exactly when document 01's line says.
#![tactic(auto)]

ghost use Rattle.std.specs.Prelude.{◌≡◌};
ghost use Rattle.refusals.specs.Numbers.{numbered, unless};
ghost use Rattle.image.specs.Reader.{frame_number, frame_of, number_of};

use image_body::check_body;
use refusals::Refusal;

// Where the body starts, and the trailer's counts.
#[derive(Clone, Copy)]
pub struct Frame {
    pub start: usize,
    pub inputs: u32,
    pub nodes: u32,
    pub outs: u32,
}

// 2 and 3, or the frame.
fn frame_of(img: &[u8]) -> Result<Frame, Refusal>
    ensures { numbered result ≡ unless (frame_number img.now) (frame_of img.now) }
{
    let len = img.len();
    if len < 16 {
        return Err(Refusal::Frame);
    }
    let span = words::word_at(img, len - 4) as usize;
    if !((16 <= span) & ((span % 4 == 0) & (span <= len))) {
        return Err(Refusal::Frame);
    }
    let inputs = words::word_at(img, len - 16);
    let nodes = words::word_at(img, len - 12);
    let outs = words::word_at(img, len - 8);
    if !((inputs <= 1024) & ((nodes <= 512) & (outs <= 64))) {
        return Err(Refusal::Limits);
    }
    Ok(Frame {
        start: len - span,
        inputs,
        nodes,
        outs,
    })
}

// The frame, once the body behind the prefix is checked: 2 to 6, and 7 where the network has to be sorted.
pub fn check<const SORTED: bool>(img: &[u8]) -> Result<Frame, Refusal>
    ensures { numbered result ≡ unless (number_of SORTED img.now) (frame_of img.now) }
{
    let f = frame_of(img)?;
    check_body(&img[f.start..], f.inputs, f.nodes, f.outs, SORTED)?;
    Ok(f)
}
