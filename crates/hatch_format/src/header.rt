// The header of a hatch list: mark, version and count, and the length that follows from them.
ghost use Rattle.std.specs.Prelude.{◌≡◌, ◌<◌};
ghost use Rattle.hatch_format.specs.Format.{version_one_of, rows, layout_of, wrong_length_of, sized_of, head_of};
ghost use Rattle.hatch_format.specs.HatchList.{Accepts, AcceptsOnly};

use crate::bytes::half;
use types::{Refusal, RefusalAt};

// The mark of a hatch list.
pub const HSL: [u8; 3] = [b'H', b'S', b'L'];

// The bytes at which mark, version, count and records begin.
pub const MARK_AT: usize = 0;

pub const VERSION_AT: usize = 3;

pub const COUNT_AT: usize = 5;

pub const RECORDS_AT: usize = 7;

// A version: its number, the bytes of one record, and the most records of a file.
#[derive(Clone, Copy, Debug, PartialEq, Eq)]
pub struct Row {
    pub version: usize,
    pub width: usize,
    pub limit: usize,
}

// The bytes of a record of version 1, and the most records of a file of that version.
pub const RECORD_BYTES: usize = 32;

pub const RECORDS_MAX: usize = 2000;

const VERSION_ONE: Row = Row {
    version: 1,
    width: RECORD_BYTES,
    limit: RECORDS_MAX,
};

// The bytes of the longest file that is accepted.
pub const BYTES_MAX: usize = RECORDS_AT + RECORD_BYTES * RECORDS_MAX;

// What an accepted header says: the row of the file's version, and how many records the file has.
#[derive(Clone, Copy, Debug, PartialEq, Eq)]
pub struct Head {
    pub row: Row,
    pub count: usize,
}

// Version 1, the version of the files that are written.
pub fn version_one() -> Row
    ensures { result ≡ version_one_of }
{
    VERSION_ONE
}

#[tactic(auto, unfolding(crate::specs::Format::layout_of))]
fn layout_of(version: usize) -> Option<Row>
    ensures { result ≡ layout_of rows version }
{
    (version == 1).then(version_one)
}

// The refusal of a file whose length is not the expected one. Its byte is the smaller of the two lengths.
fn wrong_length(size: usize, expected: usize) -> RefusalAt
    ensures { result ≡ wrong_length_of size expected }
{
    Refusal::Length.at(size.min(expected))
}

// Tests the count, then the length of the file, `size`.
#[tactic(auto, unfolding(crate::specs::Format::sized_of))]
fn sized(row: Row, size: usize, count: usize) -> Result<Head, RefusalAt>
    requires { (row.width < 65536) × (count < 65536) }
    ensures { result ≡ sized_of row size count }
{
    if row.limit < count {
        return Err(Refusal::Count.at(COUNT_AT));
    }
    let expected = RECORDS_AT + row.width * count;
    if size != expected {
        return Err(wrong_length(size, expected));
    }
    Ok(Head { row, count })
}

// What the header of a file with this mark says, or the first refusal. Exactly hatch lists are accepted.
pub fn head_of(mark: &[u8], bytes: &[u8]) -> Result<Head, RefusalAt>
    ensures answers { result ≡ head_of mark.now rows bytes.now }
    ensures accepts { Accepts mark.now bytes.now result }
    ensures accepts_only { AcceptsOnly mark.now bytes.now result }
{
    if !bytes.starts_with(mark) {
        return Err(Refusal::Mark.at(MARK_AT));
    }
    if bytes.len() < RECORDS_AT {
        return Err(wrong_length(bytes.len(), RECORDS_AT));
    }
    let version = half(bytes, VERSION_AT);
    let count = half(bytes, COUNT_AT);
    let row = layout_of(version).ok_or(Refusal::Version.at(VERSION_AT))?;
    sized(row, bytes.len(), count)
}
