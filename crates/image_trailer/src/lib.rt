// The trailer of an image, written behind records and outputs.
#![tactic(auto)]

ghost use Rattle.std.specs.Prelude.{◌≡◌};
ghost use Rattle.image_trailer.specs.Trailers.{put_words, trailer_words, Trailer};

use tables::counts::Counts;
use words::put_word;

// The trailer from the byte `at` on, where records and outputs end.
pub fn write_trailer(counts: Counts, out: &mut [u8], at: usize)
    requires { Trailer counts out.old at }
    ensures { out.new ≡ put_words out.old at (trailer_words counts at) }
{
    put_word(out, at, counts.inputs as u32);
    put_word(out, at + 4, counts.nodes as u32);
    put_word(out, at + 8, counts.outs as u32);
    put_word(out, at + 12, (at + 16) as u32);
}
