// Two hatch lists merged, bytes to bytes: the records of the first in its order, then those of the second that are neither in the first nor earlier
// in the second. Two records are the same if all their bits are.
#![tactic(auto)]

mod additions;
mod both;
mod put;
mod refusal;
mod repeats;

ghost use Rattle.std.specs.Prelude.{◌≡◌, ◌≤◌, length};
ghost use Rattle.lists.specs.Lent.{leaves};
ghost use Rattle.hatch_format.specs.Format.{hsl, rows, version_one_of, head_of};
ghost use Rattle.hatch_write.specs.Write.{size_of};
ghost use Rattle.hatch_merge.specs.Merge.{merge_of, merged_file};
ghost use Rattle.hatch_merge.specs.Promise.{MergesRecords, EmptySecond};
ghost use Rattle.hatch_merge.specs.Parts.{parts_of, merged_in, flat_file, head_in_of};

use both::Both;
use hatch_format::{HSL, Head, RECORD_BYTES, RECORDS_AT, RECORDS_MAX};
use put::{put_all, put_numbered};
pub use refusal::{MergeList, RefusalIn};
use types::Refusal;

// The header of a list.
fn head_in(list: MergeList, bytes: &[u8]) -> Result<Head, RefusalIn>
    ensures { result ≡ head_in_of list (head_of hsl rows bytes.now) }
{
    hatch_format::head_of(&HSL, bytes).map_err(|at| RefusalIn { list, at })
}

// The records of a hatch list.
fn records(bytes: &[u8]) -> &[[u8; RECORD_BYTES]]
    requires { 7 ≤ length bytes.now }
    ensures { result.now ≡ parts_of bytes.now }
{
    bytes[RECORDS_AT..].as_chunks().0
}

// Writes the merge of the records of two lists. It is counted before anything is written, so that a refusal leaves the lent list as it is.
fn merge_records(both: Both<'_>, out: &mut [u8]) -> Result<usize, Refusal>
    ensures answers { result ≡ size_of version_one_of (length (merged_in both.entry)) (length out.old) }
    ensures leaves { out.new ≡ leaves result (flat_file (merged_in both.entry)) out.old }
{
    let mut numbers = [0; RECORDS_MAX];
    let more = additions::list(both, &mut numbers);
    let size = hatch_write::begin(out, both.first.len() + more)?;
    put_all(out, RECORDS_AT, both.first);
    let end = RECORDS_AT + RECORD_BYTES * both.first.len();
    put_numbered(out, end, both.second, &numbers[..more]);
    Ok(size)
}

// Writes the merge of two hatch lists to the start of `out` and answers how many bytes it has. A refusal of the first list comes before one of the
// second, and those of the merged list last.
pub fn merge(first: &[u8], second: &[u8], out: &mut [u8]) -> Result<usize, RefusalIn>
    ensures answers { result ≡ merge_of first.now second.now out.old }
    ensures leaves { out.new ≡ leaves result (merged_file first.now second.now) out.old }
    ensures merges { MergesRecords first.now second.now result out.new }
    ensures empty_second { EmptySecond first.now second.now result out.old out.new }
{
    head_in(MergeList::First, first)?;
    head_in(MergeList::Second, second)?;
    let both = Both {
        first: records(first),
        second: records(second),
    };
    Ok(merge_records(both, out)?)
}
