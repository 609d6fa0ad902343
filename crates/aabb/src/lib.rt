// Upright boxes: the stretch of a line or a ray inside, points inside, and the centre. A box stands beside a line's origin
// and direction, or beside a point, as in the source: a struct of them would be made by each caller and taken apart here.
#![tactic(auto, unfolding(crate::specs::Clip::intersections_against_line_of, crate::specs::Clip::intersections_against_ray_of, crate::specs::Inside::is_include_point_of, slabs::specs::Clip::clip_over, slabs::specs::Clip::narrow_all))]

ghost use Rattle.std.specs.Prelude.{◌≡◌};
ghost use Rattle.aabb.specs.Clip.{slabs, crossing_against_line_of, crossing_against_ray_of};
ghost use Rattle.slabs.specs.Entry.{IsLineCrossing, IsRayCrossing};
ghost use Rattle.aabb.specs.Inside.{is_include_point_of, center_of};

use slabs::{Crossing, Slab};
use types::{Aabb2, Vec2};

// The box and the line, dimension by dimension.
pub fn slabs(b: Aabb2, origin: Vec2, direction: Vec2) -> [Slab; 2]
    ensures { result ≡ slabs b origin direction }
{
    [
        Slab {
            low: b.min_x,
            high: b.max_x,
            origin: origin.x,
            direction: direction.x,
        },
        Slab {
            low: b.min_y,
            high: b.max_y,
            origin: origin.y,
            direction: direction.y,
        },
    ]
}

// The parameters at which the line origin + t * direction enters and leaves the box, and the edge by which it enters.
pub fn intersections_against_line(b: Aabb2, origin: Vec2, direction: Vec2) -> Crossing
    ensures answers { result ≡ crossing_against_line_of b origin direction }
    ensures means { IsLineCrossing (slabs b origin direction) result }
{
    slabs::clip(&slabs(b, origin, direction))
}

// The line's answer where it leaves the box at 0 or later. The entry is not raised to 0, so the edge may lie behind the origin.
pub fn intersections_against_ray(b: Aabb2, origin: Vec2, direction: Vec2) -> Crossing
    ensures answers { result ≡ crossing_against_ray_of b origin direction }
    ensures means { IsRayCrossing (slabs b origin direction) result }
{
    slabs::clip_ahead(&slabs(b, origin, direction))
}

// Whether p is in the box, edges included. A NaN is outside.
pub fn is_include_point(b: Aabb2, p: Vec2) -> bool
    ensures { result ≡ is_include_point_of b p }
{
    slabs::within(b.x_range(), p.x) & slabs::within(b.y_range(), p.y)
}

// Written out, as in space: over a list of components it would be no plainer.
pub fn center(b: Aabb2) -> Vec2
    ensures { result ≡ center_of b }
{
    Vec2 {
        x: b.x_range().middle(),
        y: b.y_range().middle(),
    }
}
