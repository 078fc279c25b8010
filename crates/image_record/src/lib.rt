// The part of an image that holds record k.
#![tactic(auto)]

ghost use Rattle.std.specs.Prelude.{◌≡◌};
ghost use Rattle.model.specs.Image.{record_of, record_at_of};
ghost use Rattle.image_record.specs.Holders.{place_of};

use std::ops::Range;

// The bytes of record k; none if the image is refused or k is no node.
fn place_of(img: &[u8], k: u32) -> Option<Range<usize>>
    ensures { result ≡ place_of img.now k }
{
    let f = image::check::<false>(img).ok()?;
    if f.nodes <= k {
        return None;
    }
    let body = &img[f.start..];
    let at = records::skip(body, k);
    let size = records::size_of(words::nth(body, at));
    let from = f.start + 4 * at;
    Some(from..from + 4 * size)
}

// The byte of the image where record k begins; 0 if there is none.
// stays: 0, and an empty part below, are what the public entry promises and what C gets.
pub fn record_at(img: &[u8], k: u32) -> usize
    ensures { result ≡ record_at_of img.now k }
{
    match place_of(img, k) {
        Some(p) => p.start,
        None => 0,
    }
}

// The part of the image that holds record k; an empty part if the image is refused or k is no node.
pub fn record(img: &[u8], k: u32) -> &[u8]
    ensures { result.now ≡ record_of img.now k }
{
    match place_of(img, k) {
        Some(p) => &img[p.start..p.end],
        None => &img[..0],
    }
}
