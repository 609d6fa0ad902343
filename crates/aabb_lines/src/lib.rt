// A whole face: every line of a list against one box, in one call.
#![tactic(auto, unfolding(crate::specs::Results::encoded_of))]

ghost use Rattle.std.specs.Prelude.{◌≡◌, ◌++◌, ◌*◌, ◌≤◌, length, drop, flat_map};
ghost use Rattle.lists.specs.Lent.{leaves};
ghost use Rattle.aabb_lines.specs.Results.{width, encoded_of, results_of};
ghost use Rattle.aabb_lines.specs.Answer.{intersections_against_lines_of};

use slabs::Crossing;
use types::{Aabb2, Refusal, Vec2};

// How many floats a line has.
const LINE: usize = 4;

// How many its result has: `width` of the definitions.
const RESULT: usize = 4;

// 1, the interval and the edge's number, or four zeros: C takes a line's result as so many floats, LINE_RESULT_FLOATS of the header, with a 1 or
// a 0 first.
fn encoded(c: Crossing) -> [f32; RESULT]
    ensures { result ≡ encoded_of c }
{
    match c {
        Crossing::Miss => [0.0, 0.0, 0.0, 0.0],
        Crossing::Hit { tmin, tmax, edge } => [1.0, tmin, tmax, edge.number() as f32],
    }
}

fn result_of(b: Aabb2, line: &[f32; LINE]) -> [f32; RESULT]
    ensures { result ≡ results_of b line.now }
{
    let &[x, y, dx, dy] = line;
    let origin = Vec2 { x, y };
    let direction = Vec2 { x: dx, y: dy };
    encoded(aabb::intersections_against_line(b, origin, direction))
}

// The lines' results, one behind the other. By index: no clause says what `chunks_exact_mut` leaves in a list, and a result copied whole
// takes 8 % more instructions.
#[tactic(auto, using(crate::proofs::Results::none_yet, crate::proofs::Results::all_done))]
fn write_results(b: Aabb2, lines: &[[f32; LINE]], out: &mut [f32])
    requires { width * length lines.now ≤ length out.old }
    ensures { out.new ≡ flat_map (results_of b) lines.now ++ drop (width * length lines.now) out.old }
{
    for (i, line) in lines.iter().enumerate() {
        let [hit, tmin, tmax, edge] = result_of(b, line);
        out[RESULT * i] = hit;
        out[RESULT * i + 1] = tmin;
        out[RESULT * i + 2] = tmax;
        out[RESULT * i + 3] = edge;
    }
}

// The results of all lines, into the first entries of `out`; the answer is how many entries they are. A list of lines with part of a line is
// refused, and then a list too short for the results.
pub fn intersections_against_lines(
    b: Aabb2,
    lines: &[f32],
    out: &mut [f32],
) -> Result<usize, Refusal>
    ensures answers { result ≡ intersections_against_lines_of b lines.now (length out.old) }
    ensures leaves { out.new ≡ leaves result (results_of b lines.now) out.old }
{
    let (whole, part) = lines.as_chunks::<LINE>();
    if !part.is_empty() {
        return Err(Refusal::Lines);
    }
    let entries = RESULT * whole.len();
    if out.len() < entries {
        return Err(Refusal::Room);
    }
    write_results(b, whole, out);
    Ok(entries)
}
