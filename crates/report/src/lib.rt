// The report on a hatch list, as text: what the clip of each record's line gives, or the number of a refusal and its byte. `write!` would answer a
// `Result`, which every caller would drop, since a page refuses nothing.
#![tactic(auto)]

ghost use Rattle.std.specs.Prelude.{◌≡◌, map, ◌≤◌, length, take};
ghost use Rattle.lists.specs.Lent.{written};
ghost use Rattle.hatch_format.specs.Decode.{float_of, patterns_of, Holds};
ghost use Rattle.text.specs.Page.{Adds};
ghost use Rattle.report.specs.Prefix.{ReportsOnFile};
ghost use Rattle.report.specs.Report.{shown, field_of, end_of, letter_of, line_of, lines_of, opening_of, refusal_of, report_of};

use bits::Entry;
use hatch_format::{BYTES_MAX, HSL, Head, RECORDS_AT};
use hatch_read::Record;
use slabs::{Crossing, Edge};
use text::Page;
use types::RefusalAt;

// A file's report is decided by so many of its first bytes. They are one more than the longest file has, since a longer file is refused.
pub const PREFIX: usize = BYTES_MAX + 1;

// No report is longer: its first line has at most 14 bytes, and the line of each of at most 2,000 records has at most 29.
pub const REPORT_MAX: usize = 58014;

// A space, and a number in decimal.
fn put_field(page: &mut Page<'_>, n: usize)
    ensures { Adds page.old (field_of n) page.new }
{
    page.put(b" ");
    page.put_decimal(n);
}

// The bits of a float, and 0 for any zero.
#[tactic(auto, unfolding(crate::specs::Report::shown))]
fn shown_bits(x: f32) -> u32
    ensures { result ≡ shown x }
{
    if x == 0.0 { 0 } else { x.to_word() }
}

// A space, and an end of an interval as the eight hexadecimal digits of its bits.
fn put_end(page: &mut Page<'_>, x: f32)
    ensures { Adds page.old (end_of x) page.new }
{
    page.put(b" ");
    page.put_hex8(shown_bits(x));
}

// A space, and the letter of an edge. A box of the plane has no near edge and no far one.
#[tactic(auto, unfolding(crate::specs::Report::letter_of))]
fn put_edge(page: &mut Page<'_>, edge: Edge)
    ensures { Adds page.old (letter_of edge) page.new }
{
    match edge {
        Edge::Left => page.put(b" l"),
        Edge::Right => page.put(b" r"),
        Edge::Lower => page.put(b" b"),
        Edge::Upper => page.put(b" t"),
        Edge::None | Edge::Near | Edge::Far => page.put(b" n"),
    }
}

// The line of text on a record, from its place and the crossing of its line and its box.
fn put_line(page: &mut Page<'_>, place: usize, t: Crossing)
    ensures { Adds page.old (line_of place t) page.new }
{
    page.put_decimal(place);
    match t {
        Crossing::Miss => page.put(b" miss\n"),
        Crossing::Hit { tmin, tmax, edge } => {
            page.put(b" hit");
            put_end(page, tmin);
            put_end(page, tmax);
            put_edge(page, edge);
            page.put(b"\n");
        }
    }
}

// The lines of text on all records. The first has place 1.
#[tactic(auto, using(hatch_format::proofs::Records::left_none))]
fn put_lines(page: &mut Page<'_>, bytes: &[u8], head: Head)
    requires { Holds head.row.width head.count bytes.now }
    ensures { Adds page.old (lines_of (map float_of (patterns_of head.row.width bytes.now head.count)) head.count) page.new }
{
    for (k, record) in bytes[RECORDS_AT..].chunks_exact(head.row.width).enumerate() {
        let r = Record::from(hatch_format::record_bits(record, 0));
        let clipped = aabb::intersections_against_line(r.face, r.point, r.direction);
        put_line(page, k + 1, clipped);
    }
}

fn put_opening(page: &mut Page<'_>, version: usize, count: usize)
    ensures { Adds page.old (opening_of version count) page.new }
{
    page.put(&HSL);
    put_field(page, version);
    put_field(page, count);
    page.put(b"\n");
}

fn put_refusal(page: &mut Page<'_>, at: RefusalAt)
    ensures { Adds page.old (refusal_of at) page.new }
{
    page.put(b"refused");
    put_field(page, at.refusal.number() as usize);
    put_field(page, at.place);
    page.put(b"\n");
}

fn put_report(page: &mut Page<'_>, bytes: &[u8])
    ensures { Adds page.old (report_of bytes.now) page.new }
{
    match hatch_format::head_of(&HSL, bytes) {
        Err(at) => put_refusal(page, at),
        Ok(head) => {
            put_opening(page, head.row.version, head.count);
            put_lines(page, bytes, head);
        }
    }
}

// Writes the report on a hatch list to the start of `out`, as much of it as there is room for, and answers the length of the whole report.
pub fn report(bytes: &[u8], out: &mut [u8]) -> usize
    ensures answers { result ≡ length (report_of bytes.now) }
    ensures leaves { out.new ≡ written (take (length out.old) (report_of bytes.now)) out.old }
    ensures fits { result ≤ REPORT_MAX }
    ensures means { ReportsOnFile bytes.now result out.old out.new }
{
    let mut page = Page::new(out);
    put_report(&mut page, bytes);
    page.size()
}
