// Hatch lists, read, written, merged and reported on. The bytes of a hatch list are "HSL", a 16-bit version, which is 1, a 16-bit count n of at most
// 2,000, and n records of eight floats: box (min_x, min_y, max_x, max_y), origin (x, y), direction (x, y). Little-endian;
// 7 + 32 n bytes in all. Records are read and written as floats, or as patterns, the bits of the floats, in which a NaN keeps its own.
#![tactic(auto)]

mod answer;

ghost use Rattle.std.specs.Prelude.{◌≡◌, map, ◌≤◌, length, take};
ghost use Rattle.lists.specs.Lent.{written, leaves};
ghost use Rattle.hatch_format.specs.Format.{hsl, rows};
ghost use Rattle.hatch_format.specs.Decode.{record_count_of, itself, float_of};
ghost use Rattle.hatch_read.specs.Read.{decode_into, read_of, read_leaves};
ghost use Rattle.hatch_read.specs.Accepted.{ReadsExactly};
ghost use Rattle.hatch_encode.specs.Encode.{bits_of, encode};
ghost use Rattle.hatch_write.specs.Write.{write_of};
ghost use Rattle.hatch_write.specs.Saved.{ReadBack, Rewritten};
ghost use Rattle.bits.specs.Patterns.{AnyBits, OneNan};
ghost use Rattle.hatch_merge.specs.Merge.{merge_of, merged_file};
ghost use Rattle.hatch_merge.specs.Promise.{MergesRecords, EmptySecond};
ghost use Rattle.report.specs.Report.{report_of};
ghost use Rattle.report.specs.Prefix.{ReportsOnFile};
ghost use Rattle.report.specs.declared.TheConstants.{REPORT_MAX};
ghost use Rattle.c_answers.specs.Answers.{count_answer_of};
ghost use Rattle.c_answers.specs.Told.{Tells};
ghost use Rattle.c_hatch.specs.Answer.{read_answer_of, merge_answer_of};

use crate::answer::{MergeAnswer, ReadAnswer};
use c_answers::CountAnswer;

// What the header has as numbers: `HATCH_BYTES_MAX`, one more, which decide a report, and `HATCH_REPORT_MAX`.
const _: () = prove!(hatch_format::BYTES_MAX == 64007);

const _: () = prove!(report::PREFIX == 64008);

const _: () = prove!(report::REPORT_MAX == 58014);

// Reads the floats of the records of a hatch list. A float may have any bits; a NaN is read as a NaN, whose bits may differ.
// Writes the 8 * count floats to the start of `out` and answers version and count.
// Refused: `MARK` if the bytes do not begin with "HSL"; `LENGTH` if they are fewer than 7; `VERSION` if the version is not 1;
// `COUNT` if the count is above 2,000; `LENGTH` if they are not 7 + 32 * count; `ROOM` if `out` is shorter than 8 * count.
// Place: a byte, from 0 on: 0 with `MARK`, 3 with `VERSION`, 5 with `COUNT`; with `LENGTH` the number of the bytes if they are too few, and
// 7 + 32 * count if they are too many; with `ROOM` 7 + 32 * count.
// Example: "HSL\1\0\0\0", [] gives (1, 0).
#[unsafe(no_mangle)]
pub extern "C" fn bgz_hatch_read_floats(bytes: &[u8], out: &mut [f32]) -> ReadAnswer
    ensures answers { result ≡ read_answer_of (read_of (decode_into hsl rows (length out.old) bytes.now)) }
    ensures leaves { out.new ≡ read_leaves float_of (decode_into hsl rows (length out.old) bytes.now) out.old }
    ensures means { Tells read_answer_of result (λ r. ReadsExactly float_of bytes.now r out.old out.new) }
{
    ReadAnswer::from(hatch_read::read_floats(bytes, out))
}

// `hatch::read_floats` with each float as its bits, so that a NaN keeps them.
// Writes the 8 * count patterns to the start of `out` and answers version and count.
// Refused: as `hatch::read_floats` is.
// Place: that of `hatch::read_floats`.
// Example: "HSL\1\0\0\0", [] gives (1, 0).
#[unsafe(no_mangle)]
pub extern "C" fn bgz_hatch_read_patterns(bytes: &[u8], out: &mut [u32]) -> ReadAnswer
    ensures answers { result ≡ read_answer_of (read_of (decode_into hsl rows (length out.old) bytes.now)) }
    ensures leaves { out.new ≡ read_leaves itself (decode_into hsl rows (length out.old) bytes.now) out.old }
    ensures means { Tells read_answer_of result (λ r. ReadsExactly itself bytes.now r out.old out.new) }
{
    ReadAnswer::from(hatch_read::read_patterns(bytes, out))
}

// How many records a list of floats has, eight floats each; an incomplete last one does not count.
// Example: [0, 0, 4, 2, 6, -1, -1, 1, 0] gives 1.
#[unsafe(no_mangle)]
pub extern "C" fn bgz_hatch_record_count(floats: &[f32]) -> usize
    ensures { result ≡ record_count_of floats.now }
{
    hatch_read::record_count(floats)
}

// A hatch list of version 1 from the bits of its floats, eight a record. The number n of records is the length of `patterns` / 8,
// rounded down: an incomplete last record is not written. What is written, `hatch::read_patterns` reads as the same records. To save
// what `hatch::read_patterns` read, hand over the 8 * count patterns that it wrote: the bytes are those that it read, also where a
// float is a NaN.
// Writes 7 + 32 * n bytes to the start of `out` and answers how many that is; `HATCH_BYTES_MAX` are room for any.
// Refused: `COUNT` if n is above 2,000; `ROOM` if `out` is shorter than 7 + 32 * n.
// Example: [1, 2, 3, 4, 5, 6, 7, 8], [9; 40] gives 39 and leaves [72, 83, 76, 1, 0, 1, 0, 1, 0, 0, 0, 2, 0, 0, 0, 3, 0, 0, 0, 4, 0, 0,
// 0, 5, 0, 0, 0, 6, 0, 0, 0, 7, 0, 0, 0, 8, 0, 0, 0, 9].
#[unsafe(no_mangle)]
pub extern "C" fn bgz_hatch_write_patterns(patterns: &[u32], out: &mut [u8]) -> CountAnswer
    ensures answers { result ≡ count_answer_of (write_of patterns.now out.old) }
    ensures leaves { out.new ≡ leaves (write_of patterns.now out.old) (encode hsl 1 patterns.now) out.old }
    ensures reads_back { Tells count_answer_of result (λ r. ReadBack itself patterns.now r out.new) }
    ensures rewrites { Tells count_answer_of result (λ r. Rewritten itself AnyBits patterns.now r out.old out.new) }
{
    CountAnswer::from(hatch_write::write_patterns(patterns, out))
}

// `hatch::write_patterns` from the floats themselves, n records of eight. A NaN is written with the bits 7fc00000, whatever its own
// are, and every other float with its own bits. What is written, `hatch::read_floats` reads as the same records. The floats that it
// read are written as the bytes that it read if the file's NaNs have the bits 7fc00000; `hatch::read_patterns` and
// `hatch::write_patterns` keep the bits of every NaN.
// Writes 7 + 32 * n bytes to the start of `out` and answers how many that is.
// Refused: as `hatch::write_patterns` is.
// Example: [0, 0, 4, 2, 6, -1, -1, 1], [9; 40] gives 39 and leaves [72, 83, 76, 1, 0, 1, 0, 0, 0, 0, 0, 0, 0, 0, 0, 0, 0, 128, 64, 0,
// 0, 0, 64, 0, 0, 192, 64, 0, 0, 128, 191, 0, 0, 128, 191, 0, 0, 128, 63, 9].
#[unsafe(no_mangle)]
pub extern "C" fn bgz_hatch_write_floats(floats: &[f32], out: &mut [u8]) -> CountAnswer
    ensures answers { result ≡ count_answer_of (write_of floats.now out.old) }
    ensures leaves { out.new ≡ leaves (write_of floats.now out.old) (encode hsl 1 (map bits_of floats.now)) out.old }
    ensures reads_back { Tells count_answer_of result (λ r. ReadBack float_of floats.now r out.new) }
    ensures rewrites { Tells count_answer_of result (λ r. Rewritten float_of OneNan floats.now r out.old out.new) }
{
    CountAnswer::from(hatch_write::write_floats(floats, out))
}

// Two hatch lists merged into one of version 1: the records of `first` in its order, with its repeats, and then those of `second` in
// its order that are neither in `first` nor earlier in `second`. Two records are the same if all their bits are: 0 is not -0, and two
// NaNs are the same only if their bits are. `hatch::read_patterns` reads the merged list as these records. If `second` has no records,
// the merged list is `first`, byte for byte. A call takes some 20,300 bytes of the stack.
// Writes the 7 + 32 * n bytes of the n records to the start of `out` and answers how many bytes that is. The bytes of `first` and of
// `second` together, less 7, are always room enough, and so are `HATCH_BYTES_MAX`.
// Refused: `first`, then `second`, as `hatch::read_patterns` refuses them, but for `ROOM`; `COUNT` if n is above 2,000; `ROOM` if
// `out` is shorter than 7 + 32 * n.
// Place: `list` is 1 with a refusal of `first` and 2 with one of `second`; `place` is the byte that `hatch::read_patterns` tells with
// `MARK`, `VERSION`, `COUNT` or `LENGTH`. Both are 0 if n is above 2,000 or `out` is too short.
// Example: "HSL\1\0\0\0", "HSL\1\0\0\0", [9; 8] gives 7 and leaves [72, 83, 76, 1, 0, 0, 0, 9].
#[unsafe(no_mangle)]
pub extern "C" fn bgz_hatch_merge(first: &[u8], second: &[u8], out: &mut [u8]) -> MergeAnswer
    ensures answers { result ≡ merge_answer_of (merge_of first.now second.now out.old) }
    ensures leaves { out.new ≡ leaves (merge_of first.now second.now out.old) (merged_file first.now second.now) out.old }
    ensures merges { Tells merge_answer_of result (λ r. MergesRecords first.now second.now r out.new) }
    ensures empty_second { Tells merge_answer_of result (λ r. EmptySecond first.now second.now r out.old out.new) }
{
    MergeAnswer::from(hatch_merge::merge(first, second, out))
}

// The report on a hatch list, as text in ASCII. The first line is "HSL", version and count. Then each record has a line of its own:
// its place from 1, and what `aabb::intersections_against_line` answers for its box, origin and direction: "miss", or "hit" with tmin
// and tmax, each as the eight lower-case hexadecimal digits of its bits, any zero as 00000000, and the edge as a letter: l for
// `Edge::Left`, r for `Edge::Right`, b for `Edge::Lower`, t for `Edge::Upper`, n for `Edge::None`. Fields stand one space apart, and a
// line ends in a line feed. For bytes that are no hatch list the only line is "refused", the number of the refusal of
// `hatch::read_floats`, and its byte. Bytes beyond the first `HATCH_BYTES_MAX` + 1 change nothing: they need not be handed over.
// Writes the text to the start of `out`, with no NUL after it, and answers its length in bytes. If `out` is shorter, it is filled with
// the first bytes of the text, and the answer is still the whole length; `HATCH_REPORT_MAX` are room for any.
// Example: "HSL\1\0\0\0", [0; 8] gives 8 and leaves "HSL 1 0\n".
#[unsafe(no_mangle)]
pub extern "C" fn bgz_hatch_report(bytes: &[u8], out: &mut [u8]) -> usize
    ensures answers { result ≡ length (report_of bytes.now) }
    ensures leaves { out.new ≡ written (take (length out.old) (report_of bytes.now)) out.old }
    ensures fits { result ≤ REPORT_MAX }
    ensures means { ReportsOnFile bytes.now result out.old out.new }
{
    report::report(bytes, out)
}
