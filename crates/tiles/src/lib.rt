// The tiles of a sheet that an upright box overlaps. specs/Promise.antt says what is promised of them.
#![tactic(auto)]

ghost use Rattle.std.specs.Prelude.{◌≡◌, true, false, ◌++◌, ◌+◌, ◌*◌, ◌≤◌, length, drop, MatchResult};
ghost use Rattle.types.specs.declared.refusal.Refusal.TheVariants.{Size};
ghost use Rattle.types.specs.declared.side.TheConstants.{SIDE_MAX};
ghost use Rattle.tiles.specs.Tiles.{first_place, past_place_of, place_count, run, rows as rows_of};
ghost use Rattle.tiles.specs.Answer.{sheet, bad_sheet_of, bad_coordinate_of, bad_box_of};
ghost use Rattle.tiles.specs.Promise.{TilesPromise};

use types::{Aabb2, Range, Refusal, SIDE_MAX};

// A sheet that is not refused: `height` rows of `width` tiles of `size` by `size`.
#[derive(Clone, Copy, Debug, PartialEq, Eq)]
struct Sheet {
    size: usize,
    width: usize,
    height: usize,
    ghost some_size: { 1 ≤ size },
    ghost size_high: { size ≤ 4096 },
    ghost width_high: { width ≤ SIDE_MAX },
    ghost height_high: { height ≤ SIDE_MAX },
}

// Of the sheet's columns, or of its rows, those that the box overlaps: the first, and how many. Not where they end, as a `Range` of the library
// has it, since the two counts are multiplied.
#[derive(Clone, Copy, Debug, PartialEq, Eq)]
struct Span {
    first: usize,
    count: usize,
}

// The numbers of the tiles that the box overlaps, rising, into the first entries of `out`; and how many they are. The sheet's three numbers stand
// by themselves, as C hands them: `Sheet::new` tests them.
pub fn overlapping_tiles(
    b: Aabb2,
    size: usize,
    shape_width: usize,
    shape_height: usize,
    out: &mut [u32],
) -> Result<usize, Refusal>
    ensures { TilesPromise (sheet size shape_width shape_height) b out.old result out.new }
{
    let sheet = Sheet::new(size, shape_width, shape_height)?;
    if bad_box(b) {
        return Err(Refusal::Coordinate);
    }
    let columns = sheet.places(b.x_range(), sheet.width);
    let rows = sheet.places(b.y_range(), sheet.height);
    let count = rows.count * columns.count;
    let is_short = out.len() < count;
    if is_short {
        return Err(Refusal::Room);
    }
    // A box with no tile may start so far off the sheet that its tile numbers would not fit u32.
    let is_empty = count == 0;
    if is_empty {
        return Ok(0);
    }
    write_rows(out, sheet, columns, rows);
    Ok(count)
}

impl Sheet {
    // The sheet, unless it is refused. `|`, not `||`: four cheap tests with no branch between them.
    fn new(size: usize, width: usize, height: usize) -> Result<Sheet, Refusal>
        ensures { MatchResult result
            (λ s. (bad_sheet_of (sheet size width height) ≡ false) × (sheet s.size s.width s.height ≡ sheet size width height))
            (λ e. (bad_sheet_of (sheet size width height) ≡ true) × (e ≡ Size)) }
    {
        let is_bad = (size == 0) | (size > 4096) | (width > SIDE_MAX) | (height > SIDE_MAX);
        if is_bad {
            return Err(Refusal::Size);
        }
        Ok(Sheet {
            size,
            width,
            height,
        })
    }

    // Of n columns or rows, those from the one that the range's low end lies in to the one that its high end lies in. The first is one before
    // what `past_place` gives for the low end, from 0 on.
    fn places(self, range: Range, n: usize) -> Span
        requires { (bad_coordinate_of range.low ≡ false) × (bad_coordinate_of range.high ≡ false) }
        ensures { (result.first ≡ first_place self.size range.low) × (result.count ≡ place_count self.size n range.low range.high) }
    {
        let first = self.past_place(range.low).saturating_sub(1);
        let past = self.past_place(range.high).min(n);
        Span {
            first,
            count: past.saturating_sub(first),
        }
    }

    // The first column or row after the one that the rounded quotient x / size lies in, or 0 where the quotient is below 0.
    fn past_place(self, x: f32) -> usize
        requires { bad_coordinate_of x ≡ false }
        ensures { result ≡ past_place_of self.size x }
    {
        let q = x / (self.size as f32);
        if q < 0.0 {
            return 0;
        }
        rounding::to_usize(q) + 1
    }
}

fn bad_box(b: Aabb2) -> bool
    ensures { result ≡ bad_box_of b }
{
    bad_coordinate(b.min_x)
        | bad_coordinate(b.min_y)
        | bad_coordinate(b.max_x)
        | bad_coordinate(b.max_y)
}

// A NaN fails each comparison, so the comparison is the one that a good coordinate passes. stroke_check has one like it, with another limit: one
// function of both would be no shorter.
fn bad_coordinate(x: f32) -> bool
    ensures { result ≡ bad_coordinate_of x }
{
    !(float::abs(x) <= 1048576.0)
}

// The tiles of the rows and columns, one row after the other. By index, since no clause says what `chunks_exact_mut` leaves in a list.
fn write_rows(out: &mut [u32], sheet: Sheet, columns: Span, rows: Span)
    requires on_sheet { (columns.first + columns.count ≤ sheet.width) × (rows.first + rows.count ≤ sheet.height) }
    requires room { rows.count * columns.count ≤ length out.old }
    ensures { out.new ≡ rows_of sheet.width columns.first columns.count rows.first rows.count ++ drop (rows.count * columns.count) out.old }
{
    for i in 0..rows.count {
        let at = i * columns.count;
        let first = (rows.first + i) * sheet.width + columns.first;
        write_run(&mut out[at..at + columns.count], first as u32);
    }
}

// first, first + 1, ..: a number into each entry. The numbers have 32 bits, so that a vector of LLVM's has four of them and not two.
#[tactic(auto, using(crate::proofs::Lists::run_more, crate::proofs::Lists::run_whole))]
fn write_run(out: &mut [u32], first: u32)
    requires { first + length out.old ≤ 4294967296 }
    ensures { out.new ≡ run first (length out.old) }
{
    for (j, tile) in out.iter_mut().enumerate() {
        *tile = first + j as u32;
    }
}
