// Boxes made from points and from other boxes. A box, a point and a radius stand side by side as parameters, as in the source, in C and in
// ./ask: a struct of them would be made by each caller and taken apart at once.
#![tactic(auto, unfolding(crate::specs::From::from_point_of, crate::specs::From::add_point_of))]

ghost use Rattle.std.specs.Prelude.{◌≡◌};
ghost use Rattle.aabb2_from.specs.From.{from_point_of, from_two_points_of, from_two_aabbs_of, add_point_of, around_of};

use types::{Aabb2, Refusal, Vec2};

// The square around a point, whatever the radius. Written out, as `aabb3_from::set_as_cube` is for three components: a trait over both boxes
// for so few lines would be no plainer.
fn around(p: Vec2, radius: f32) -> Aabb2
    ensures { result ≡ around_of p radius }
{
    Aabb2 {
        min_x: p.x - radius,
        min_y: p.y - radius,
        max_x: p.x + radius,
        max_y: p.y + radius,
    }
}

// The box around a point, radius away on each side. A radius that is not at least 0 is refused.
pub fn from_point(p: Vec2, radius: f32) -> Result<Aabb2, Refusal>
    ensures { result ≡ from_point_of p radius }
{
    if radius >= 0.0 {
        return Ok(around(p, radius));
    }
    Err(Refusal::Radius)
}

pub fn from_two_aabbs(a: Aabb2, b: Aabb2) -> Aabb2
    ensures { result ≡ from_two_aabbs_of a b }
{
    Aabb2 {
        min_x: float::min(a.min_x, b.min_x),
        min_y: float::min(a.min_y, b.min_y),
        max_x: float::max(a.max_x, b.max_x),
        max_y: float::max(a.max_y, b.max_y),
    }
}

// The box around two points, radius away on each side. Any radius is taken: one below 0 can reverse the box.
pub fn from_two_points(p: Vec2, q: Vec2, radius: f32) -> Aabb2
    ensures { result ≡ from_two_points_of p q radius }
{
    from_two_aabbs(around(p, radius), around(q, radius))
}

// The box widened so that it has the point and radius around it. A radius that is not at least 0 is refused.
pub fn add_point(b: Aabb2, p: Vec2, radius: f32) -> Result<Aabb2, Refusal>
    ensures { result ≡ add_point_of b p radius }
{
    Ok(from_two_aabbs(b, from_point(p, radius)?))
}
