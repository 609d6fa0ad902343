// Points against a box: inside, nearest, and how far. A box, a point and a radius stand side by side as parameters, as in the source, in C and
// in ./ask: a struct of them would be made by each caller and taken apart at once.
#![tactic(auto, unfolding(crate::specs::Distance::nearest_point2_of))]

ghost use Rattle.std.specs.Prelude.{◌≡◌};
ghost use Rattle.aabb.specs.Inside.{is_include_point_of};
ghost use Rattle.aabb2_distance.specs.Distance.{past_of, is_intersect_square_of, nearest_point2_of, sdf_of};

use types::{Aabb2, Range, Refusal, Vec2};

// Whether p is in the box, edges included. A NaN is outside.
pub fn is_include_point2(b: Aabb2, p: Vec2) -> bool
    ensures { result ≡ is_include_point_of b p }
{
    aabb::is_include_point(b, p)
}

// How far a coordinate lies past the nearer end of an ordered range; negative inside.
fn past(range: Range, at: f32) -> f32
    ensures { result ≡ past_of range at }
{
    float::abs(at - range.middle()) - range.length() * 0.5
}

// Whether the square of side 2 * radius around p overlaps the box: touching is not overlapping.
pub fn is_intersect_square(b: Aabb2, p: Vec2, radius: f32) -> bool
    ensures { result ≡ is_intersect_square_of b p radius }
{
    radius > float::max(past(b.x_range(), p.x), past(b.y_range(), p.y))
}

// The point of the box nearest to p. A box that is not ordered in x, then in y, is refused.
pub fn nearest_point2(b: Aabb2, p: Vec2) -> Result<Vec2, Refusal>
    ensures { result ≡ nearest_point2_of b p }
{
    if b.is_ordered() {
        return Ok(Vec2 {
            x: float::clamp(p.x, b.min_x, b.max_x),
            y: float::clamp(p.y, b.min_y, b.max_y),
        });
    }
    Err(Refusal::Order)
}

// The signed distance to the edge of an ordered box: negative inside.
pub fn sdf(b: Aabb2, p: Vec2) -> f32
    ensures { result ≡ sdf_of b p }
{
    let dx = past(b.x_range(), p.x);
    let dy = past(b.y_range(), p.y);
    vec2::length(Vec2 {
        x: float::max(dx, 0.0),
        y: float::max(dy, 0.0),
    }) + float::min(float::max(dx, dy), 0.0)
}
