// Hatch lists of version 1, written into a lent list of bytes: from the floats of their records, eight a record, or from the bits of these floats.
// An incomplete last record is not written.
#![tactic(auto)]

mod put;

ghost use Rattle.std.specs.Prelude.{◌≡◌, map, length, All};
ghost use Rattle.lists.specs.Lent.{leaves};
ghost use Rattle.hatch_format.specs.Format.{hsl, version_one_of};
ghost use Rattle.hatch_format.specs.Decode.{itself, float_of};
ghost use Rattle.hatch_encode.specs.Encode.{bits_of, head_bytes, encode};
ghost use Rattle.hatch_write.specs.Write.{size_of, write_of};
ghost use Rattle.hatch_write.specs.Saved.{ReadBack, Rewritten};
ghost use Rattle.bits.specs.Patterns.{AnyBits, OneNan};

use bits::Entry;
use hatch_format::{HSL, RECORDS_AT};
use types::Refusal;

// Writes the header of a file of `count` records, and answers how many bytes the file has. Too many records are refused, and then a list that is
// too short for the file. The caller writes the records behind the header.
#[tactic(auto, unfolding(crate::specs::Write::size_of, lists::specs::Lent::leaves))]
pub fn begin(out: &mut [u8], count: usize) -> Result<usize, Refusal>
    ensures answers { result ≡ size_of version_one_of count (length out.old) }
    ensures leaves { out.new ≡ leaves result (head_bytes hsl 1 count) out.old }
{
    let row = hatch_format::version_one();
    if row.limit < count {
        return Err(Refusal::Count);
    }
    let size = RECORDS_AT + row.width * count;
    if out.len() < size {
        return Err(Refusal::Room);
    }
    put::put_head(out, &HSL, row.version as u16, count as u16);
    Ok(size)
}

// Writes the records whose floats are kept as these entries.
fn write<E: Entry>(entries: &[E], out: &mut [u8]) -> Result<usize, Refusal>
    requires { All E.Fits entries.now }
    ensures answers { result ≡ write_of entries.now out.old }
    ensures leaves { out.new ≡ leaves result (encode hsl 1 (map E.bits_of entries.now)) out.old }
    ensures reads_back { ReadBack E.of_bits entries.now result out.new }
    ensures rewrites { Rewritten E.of_bits E.Keeps entries.now result out.old out.new }
{
    let count = entries.len() / 8;
    let size = begin(out, count)?;
    put::put_entries(out, RECORDS_AT, &entries[..8 * count]);
    Ok(size)
}

// Writes records from the bits of their floats. A NaN keeps its bits.
pub fn write_patterns(patterns: &[u32], out: &mut [u8]) -> Result<usize, Refusal>
    ensures answers { result ≡ write_of patterns.now out.old }
    ensures leaves { out.new ≡ leaves result (encode hsl 1 patterns.now) out.old }
    ensures reads_back { ReadBack itself patterns.now result out.new }
    ensures rewrites { Rewritten itself AnyBits patterns.now result out.old out.new }
{
    write(patterns, out)
}

// Writes records from their floats. A NaN is written with the bits 7fc00000.
pub fn write_floats(floats: &[f32], out: &mut [u8]) -> Result<usize, Refusal>
    ensures answers { result ≡ write_of floats.now out.old }
    ensures leaves { out.new ≡ leaves result (encode hsl 1 (map bits_of floats.now)) out.old }
    ensures reads_back { ReadBack float_of floats.now result out.new }
    ensures rewrites { Rewritten float_of OneNan floats.now result out.old out.new }
{
    write(floats, out)
}
