// Texts, numbers and images to a writer. Where that fails, the writer may have some of the bytes.
ghost use Rattle.std.specs.Prelude.{◌++◌, OnOk, decimal};
ghost use Rattle.std.specs.Io.KnownBytes.{Appends};

use std::io;
use std::io::Write;
use words::nth;

pub fn print<W: Write>(out: &mut W, text: &[u8]) -> io::Result<()>
    ensures { OnOk result (Appends (W.contents out.old) (W.contents out.new) text.now) }
{
    out.write_all(text)
}

// A number behind a text.
pub fn print_number<W: Write>(out: &mut W, text: &[u8], n: u64) -> io::Result<()>
    ensures { OnOk result (Appends (W.contents out.old) (W.contents out.new) (text.now ++ decimal n)) }
{
    print(out, text)?;
    write!(out, "{n}")
}

// The words of an image, a space before each.
fn print_words<W: Write>(out: &mut W, image: &[u8]) -> io::Result<()> {
    for i in 0..image.len() / 4 {
        print_number(out, b" ", nth(image, i) as u64)?;
    }
    Ok(())
}

// An image of more than 32 words only by its length.
pub fn print_image<W: Write>(out: &mut W, image: &[u8]) -> io::Result<()> {
    if image.len() <= 128 {
        return print_words(out, image);
    }
    print_number(out, b" accepted, bytes ", image.len() as u64)
}
