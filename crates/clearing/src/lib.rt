// The first 16,384 words of an area set to zero. Most of them mostly are: a block is read first, and written only where it must be, since
// writing costs more than reading.
#![tactic(auto)]

ghost use Rattle.std.specs.Prelude.{◌≡◌, ◌≤◌, length, fold, replicate};
ghost use Rattle.std.specs.Int.Bits.{bit_or};
ghost use Rattle.model.specs.Answers.{cleared};
ghost use Rattle.clearing.specs.Blocks.{joined, zeroed};

// The words of a block, joined bit by bit: zero where all of them are.
fn joined(block: &[u32]) -> u32
    ensures whole { result ≡ fold bit_or 0 block.now }
    ensures words { length block.now ≡ 128 → result ≡ joined block.now 0 128 }
{
    block.iter().fold(0, |x, w| x | w)
}

fn clear_block(block: &mut [u32])
    ensures whole { block.new ≡ replicate (length block.old) 0 }
    ensures words { length block.old ≡ 128 → block.new ≡ zeroed block.old 0 128 }
{
    if joined(block) == 0 {
        return;
    }
    block.fill(0);
}

pub fn clear(area: &mut [u32])
    requires { 16384 ≤ length area.old }
    ensures { area.new ≡ cleared area.old }
{
    for k in 0..128 {
        clear_block(&mut area[128 * k..128 * k + 128]);
    }
}
