// The length of an edge inside an upright box, as the Rust takes it. An edge is given by its two ends, as in the source, in C and in ./ask: a
// struct of the two would be made by each caller and taken apart at once.
#![tactic(auto)]

ghost use Rattle.std.specs.Prelude.{◌≡◌};
ghost use Rattle.edge2_inside.specs.Inside.{shared_of, intersection_length_against_aabb2_of};

use types::{Aabb2, Range, Refusal, Vec2};

// What the box's range and the range between the edge's two ends share in one dimension. That range is made here: crates stroke and stroke_bound
// make one too, the first widened and the second of two numbers whose order is known.
fn shared(range: Range, s: f32, e: f32) -> Result<Option<f32>, Refusal>
    ensures { result ≡ shared_of range s e }
{
    range::intersection_length(
        range,
        Range {
            low: float::min(s, e),
            high: float::max(s, e),
        },
    )
}

// The diagonal of the overlaps in x and in y; 0 where there is none. Refused where a range is not ordered, y only once x has an overlap.
#[tactic(auto, unfolding(crate::specs::Inside::diagonal_of, crate::specs::Inside::intersection_length_against_aabb2_of))]
pub fn intersection_length_against_aabb2(s: Vec2, e: Vec2, b: Aabb2) -> Result<f32, Refusal>
    ensures { result ≡ intersection_length_against_aabb2_of s e b }
{
    let Some(dx) = shared(b.x_range(), s.x, e.x)? else {
        return Ok(0.0);
    };
    let Some(dy) = shared(b.y_range(), s.y, e.y)? else {
        return Ok(0.0);
    };
    Ok(vec2::length(Vec2 { x: dx, y: dy }))
}
