// The part of an image that holds record k, without work areas or a number.
ghost use Rattle.std.specs.Prelude.{◌≡◌};
ghost use Rattle.model.specs.Image.{record_of, record_at_of};

// Exactly node k's record; empty if the image meets any of 2 to 6 or k is no node.
pub fn record(image: &[u8], k: u32) -> &[u8]
    ensures { result.now ≡ record_of image.now k }
{
    image_record::record(image, k)
}

// The byte of the image where that part begins; 0 if it is empty.
pub fn record_at(image: &[u8], k: u32) -> usize
    ensures { result ≡ record_at_of image.now k }
{
    image_record::record_at(image, k)
}
