// The format of a hatch list: its header, by the table of versions, and the bits of its records.
#![tactic(auto)]

mod bytes;
mod header;

pub use bytes::record_bits;
pub use header::{
    BYTES_MAX, COUNT_AT, HSL, Head, MARK_AT, RECORD_BYTES, RECORDS_AT, RECORDS_MAX, Row,
    VERSION_AT, head_of, version_one,
};
