// The records of a hatch list, read into a lent list: as floats, eight a record, or as the bits of these floats.
#![tactic(auto)]

ghost use Rattle.std.specs.Prelude.{◌≡◌, map, ◌*◌, ◌≤◌, length};
ghost use Rattle.lists.specs.Lent.{written};
ghost use Rattle.hatch_format.specs.Format.{hsl, rows, head_of};
ghost use Rattle.hatch_format.specs.Decode.{record_count_of, patterns_of, itself, float_of, Holds};
ghost use Rattle.hatch_read.specs.Record.{record_of};
ghost use Rattle.hatch_read.specs.Read.{with_room, decode_into, read_of, read_leaves};
ghost use Rattle.hatch_read.specs.Accepted.{ReadsExactly};

use bits::Entry;
use hatch_format::{HSL, Head, RECORDS_AT};
use types::{Aabb2, Refusal, RefusalAt, Vec2};

// What was read: the version of the file, and the number of its records.
#[derive(Clone, Copy, Debug, PartialEq, Eq)]
pub struct Read {
    pub version: usize,
    pub count: usize,
}

// The number of the records in a list of floats, eight a record. An incomplete last record does not count.
pub fn record_count(floats: &[f32]) -> usize
    ensures { result ≡ record_count_of floats.now }
{
    floats.len() / 8
}

// A record: a line, and the box that it is clipped to.
#[derive(Clone, Copy, Debug, PartialEq)]
pub struct Record {
    pub face: Aabb2,
    pub point: Vec2,
    pub direction: Vec2,
}

// From the bits of its floats, in the order of the file.
impl From<[u32; 8]> for Record {
    ghost from_gives = { λ bits r. r ≡ record_of bits };

    fn from(bits: [u32; 8]) -> Record {
        let [min_x, min_y, max_x, max_y, x, y, dx, dy] = bits.map(f32::from_word);
        Record {
            face: Aabb2 {
                min_x,
                min_y,
                max_x,
                max_y,
            },
            point: Vec2 { x, y },
            direction: Vec2 { x: dx, y: dy },
        }
    }
}

// The header of a file that is read into a list of `room` entries, eight a record.
#[tactic(auto, using(hatch_format::proofs::Records::held), unfolding(crate::specs::Read::with_room))]
fn head_within(mark: &[u8], bytes: &[u8], room: usize) -> Result<Head, RefusalAt>
    ensures { result ≡ with_room room (head_of mark.now rows bytes.now) }
{
    let head = hatch_format::head_of(mark, bytes)?;
    if room / 8 < head.count {
        return Err(Refusal::Room.at(bytes.len()));
    }
    Ok(head)
}

// Fills the first entries of the list, eight a record. The eight are taken by their place in the list, since no clause says what a list holds after
// `chunks_exact_mut`.
#[tactic(auto, using(crate::proofs::Loading::filled_all, hatch_format::proofs::Records::left_some, hatch_format::proofs::Records::left_none))]
fn load<E: Entry>(bytes: &[u8], head: Head, out: &mut [E])
    requires { Holds head.row.width head.count bytes.now × (8 * head.count ≤ length out.old) }
    ensures { out.new ≡ written (map E.of_bits (patterns_of head.row.width bytes.now head.count)) out.old }
{
    for (i, record) in bytes[RECORDS_AT..].chunks_exact(head.row.width).enumerate() {
        let bits = hatch_format::record_bits(record, 0);
        put_record(&mut out[8 * i..8 * i + 8], bits);
    }
}

// Writes the entries of a record, from the bits of its floats. The loop counts them, since no clause says what a list holds after a `zip`. With
// `copy_from_slice` of `bits.map(|word| E::from_word(word))` a file takes three times as long to be written and read back.
#[tactic(auto, using(crate::proofs::Loading::put_more))]
fn put_record<E: Entry>(out: &mut [E], bits: [u32; 8])
    requires { length out.old ≡ 8 }
    ensures { out.new ≡ map E.of_bits bits }
{
    for (j, entry) in out.iter_mut().enumerate() {
        *entry = E::from_word(bits[j]);
    }
}

// Reads a file with this mark.
#[tactic(auto, unfolding(crate::specs::Read::decode_into, crate::specs::Read::read_of, crate::specs::Read::read_leaves, hatch_format::specs::Decode::body_of))]
fn read_entries<E: Entry>(mark: &[u8], bytes: &[u8], out: &mut [E]) -> Result<Read, RefusalAt>
    ensures answers { result ≡ read_of (decode_into mark.now rows (length out.old) bytes.now) }
    ensures leaves { out.new ≡ read_leaves E.of_bits (decode_into mark.now rows (length out.old) bytes.now) out.old }
{
    let head = head_within(mark, bytes, out.len())?;
    load(bytes, head, out);
    Ok(Read {
        version: head.row.version,
        count: head.count,
    })
}

// Reads the floats of a hatch list as their bits. A NaN keeps its bits.
#[tactic(auto, using(crate::proofs::Reading::reads_exactly))]
pub fn read_patterns(bytes: &[u8], out: &mut [u32]) -> Result<Read, RefusalAt>
    ensures answers { result ≡ read_of (decode_into hsl rows (length out.old) bytes.now) }
    ensures leaves { out.new ≡ read_leaves itself (decode_into hsl rows (length out.old) bytes.now) out.old }
    ensures means { ReadsExactly itself bytes.now result out.old out.new }
{
    read_entries(&HSL, bytes, out)
}

// Reads the floats of a hatch list. A NaN is read as a NaN, whose bits may differ.
pub fn read_floats(bytes: &[u8], out: &mut [f32]) -> Result<Read, RefusalAt>
    ensures answers { result ≡ read_of (decode_into hsl rows (length out.old) bytes.now) }
    ensures leaves { out.new ≡ read_leaves float_of (decode_into hsl rows (length out.old) bytes.now) out.old }
    ensures means { ReadsExactly float_of bytes.now result out.old out.new }
{
    read_entries(&HSL, bytes, out)
}
