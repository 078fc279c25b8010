// Writing: the network of an area as an image into a lent buffer. First its length, then 13 or the bytes, and nothing past them.
#![tactic(auto)]

ghost use Rattle.std.specs.Prelude.{[], length};
ghost use Rattle.model.specs.Image.{image_of};
ghost use Rattle.model.specs.Answers.{written, in_room};
ghost use Rattle.tables.specs.Holding.{network_of, Held};
ghost use Rattle.tables.specs.Working.{Answered, Answered2};
ghost use Rattle.write_image.specs.Writing.{mapping_in};
ghost use Rattle.write.specs.Mapping.{HeldMapped};
ghost use Rattle.refusals.specs.Numbers.{numbered};

use answers::Answer;
use refusals::Refusal;
use tables::counts::Counts;
use write_image::{image_len, write_image, write_mapping};

// The image of the network in an area.
pub fn write(from: &[u32], counts: Counts, out: &mut [u8]) -> Answer
    requires { Held from.now counts }
    ensures { Answered (in_room (length out.old) 0 (written (image_of (network_of from.now counts)) [])) out.old (numbered result) out.new }
{
    let len = image_len(from, counts);
    if out.len() < len {
        return Err(Refusal::Room);
    }
    write_image(from, counts, out);
    Ok(len)
}

// The same with the mapping of so many old nodes: both lengths are looked at before either is written.
pub fn write_mapped(
    from: &[u32],
    counts: Counts,
    old: usize,
    out: &mut [u8],
    map: &mut [u32],
) -> Answer
    requires { HeldMapped from.now counts old }
    ensures { Answered2 (in_room (length out.old) (length map.old) (written (image_of (network_of from.now counts)) (mapping_in from.now old))) out.old map.old (numbered result) out.new map.new }
{
    let len = image_len(from, counts);
    if out.len() < len {
        return Err(Refusal::Room);
    }
    if map.len() < old {
        return Err(Refusal::Room);
    }
    write_image(from, counts, out);
    write_mapping(from, old, map);
    Ok(len)
}
