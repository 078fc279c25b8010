// The entries for C and Rust (include/lanternlean.h), each with the entry's own promise. A slice is a pointer and a length in elements.
#![tactic(auto)]

ghost use Rattle.std.specs.Prelude.{◌≡◌, ◌<◌, length};
ghost use Rattle.answers.specs.Numbers.{length_of};
ghost use Rattle.model.specs.Image.{record_of, record_at_of};
ghost use Rattle.model.specs.Entries.{read_outcome, evaluate_outcome, canonical_outcome, dedup_outcome, cleanup_outcome, sort_outcome, flatten_outcome, factor_outcome, share_outcome};
ghost use Rattle.exports.specs.Packed.{packed, Exported, Exported2};
ghost use Rattle.refusals.specs.Numbers.{numbered};

use answers::Answer;

// An answer in one word: the number in its low 32 bits, the length in its high 32 bits.
fn pack(a: Answer) -> u64
    requires { length_of (numbered a) < 4294967296 }
    ensures { result ≡ packed (numbered a) }
{
    (answers::number(a) as u64) + 4294967296 * (answers::length(a) as u64)
}

#[unsafe(no_mangle)]
pub extern "C" fn ll_read(image: &[u8], out: &mut [u8], a: &mut [u32], b: &mut [u32]) -> u64
    ensures { Exported (read_outcome image.now out.old a.old b.old) out.old a.old b.old result out.new a.new b.new }
{
    pack(lanternlean::read::read(image, out, a, b))
}

#[unsafe(no_mangle)]
pub extern "C" fn ll_canonical(
    image: &[u8],
    out: &mut [u8],
    map: &mut [u32],
    a: &mut [u32],
    b: &mut [u32],
) -> u64
    ensures { Exported2 (canonical_outcome image.now out.old map.old a.old b.old) out.old map.old a.old b.old result out.new map.new a.new b.new }
{
    pack(network::canonical::canonical(image, out, map, a, b))
}

#[unsafe(no_mangle)]
pub extern "C" fn ll_dedup(
    image: &[u8],
    out: &mut [u8],
    map: &mut [u32],
    a: &mut [u32],
    b: &mut [u32],
) -> u64
    ensures { Exported2 (dedup_outcome image.now out.old map.old a.old b.old) out.old map.old a.old b.old result out.new map.new a.new b.new }
{
    pack(network::deduplicate::dedup(image, out, map, a, b))
}

#[unsafe(no_mangle)]
pub extern "C" fn ll_cleanup(
    image: &[u8],
    out: &mut [u8],
    map: &mut [u32],
    a: &mut [u32],
    b: &mut [u32],
) -> u64
    ensures { Exported2 (cleanup_outcome image.now out.old map.old a.old b.old) out.old map.old a.old b.old result out.new map.new a.new b.new }
{
    pack(network::cleaning::cleanup(image, out, map, a, b))
}

#[unsafe(no_mangle)]
pub extern "C" fn ll_sort(
    image: &[u8],
    out: &mut [u8],
    map: &mut [u32],
    a: &mut [u32],
    b: &mut [u32],
) -> u64
    ensures { Exported2 (sort_outcome image.now out.old map.old a.old b.old) out.old map.old a.old b.old result out.new map.new a.new b.new }
{
    pack(network::sort::sort(image, out, map, a, b))
}

#[unsafe(no_mangle)]
pub extern "C" fn ll_flatten(
    image: &[u8],
    limit: u32,
    out: &mut [u8],
    a: &mut [u32],
    b: &mut [u32],
) -> u64
    ensures { Exported (flatten_outcome image.now out.old a.old b.old limit) out.old a.old b.old result out.new a.new b.new }
{
    pack(sharing::flattening::flatten(image, limit, out, a, b))
}

#[unsafe(no_mangle)]
pub extern "C" fn ll_factor(image: &[u8], out: &mut [u8], a: &mut [u32], b: &mut [u32]) -> u64
    ensures { Exported (factor_outcome image.now out.old a.old b.old) out.old a.old b.old result out.new a.new b.new }
{
    pack(sharing::factor::factor(image, out, a, b))
}

#[unsafe(no_mangle)]
pub extern "C" fn ll_share(
    image: &[u8],
    limit: u32,
    out: &mut [u8],
    a: &mut [u32],
    b: &mut [u32],
) -> u64
    ensures { Exported (share_outcome image.now out.old a.old b.old limit) out.old a.old b.old result out.new a.new b.new }
{
    pack(sharing::share::share(image, limit, out, a, b))
}

#[unsafe(no_mangle)]
pub extern "C" fn ll_evaluate(
    image: &[u8],
    inputs: &[u8],
    state: &mut [u8],
    outputs: &mut [u8],
    a: &mut [u32],
    b: &mut [u32],
) -> u64
    ensures { Exported2 (evaluate_outcome image.now inputs.now state.old outputs.old a.old b.old) outputs.old state.old a.old b.old result outputs.new state.new a.new b.new }
{
    pack(evaluation::evaluate(image, inputs, state, outputs, a, b))
}

// The byte of the image where record k begins, 0 if there is none.
#[unsafe(no_mangle)]
pub extern "C" fn ll_record_at(image: &[u8], k: u32) -> usize
    ensures { result ≡ record_at_of image.now k }
{
    lanternlean::record::record_at(image, k)
}

// Its length in bytes, 0 if there is none.
#[unsafe(no_mangle)]
pub extern "C" fn ll_record_len(image: &[u8], k: u32) -> usize
    ensures { result ≡ length (record_of image.now k) }
{
    let part = lanternlean::record::record(image, k);
    part.len()
}
