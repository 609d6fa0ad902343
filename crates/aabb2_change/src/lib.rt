// A box's size and centre, and boxes moved, scaled and transformed. A box is four floats, as C has it, so that what is added to its corners is added
// by component: a vector for each corner would be made to be taken apart.
#![tactic(auto, unfolding(crate::specs::Change::with_image_of, crate::specs::Change::transform_homogeneous_of, crate::specs::Change::with_images))]

ghost use Rattle.std.specs.Prelude.{◌≡◌};
ghost use Rattle.aabb2_from.specs.From.{from_two_aabbs_of};
ghost use Rattle.aabb.specs.Inside.{center_of};
ghost use Rattle.aabb2_change.specs.Change.{max_edge_size_of, transform_homogeneous_of, to_transformation_world2unit_ortho_preserve_asp_of, scale_of, translate_of, reach, corners_of, point_of};

use types::{Aabb2, Mat3, Range, Refusal, Vec2};

pub fn center(b: Aabb2) -> Vec2
    ensures { result ≡ center_of b }
{
    aabb::center(b)
}

// The longer of the two edges.
pub fn max_edge_size(b: Aabb2) -> f32
    ensures { result ≡ max_edge_size_of b }
{
    float::max(b.x_range().length(), b.y_range().length())
}

// The box of no points.
const NO_POINTS: Aabb2 = Aabb2 {
    min_x: f32::INFINITY,
    min_y: f32::INFINITY,
    max_x: f32::NEG_INFINITY,
    max_y: f32::NEG_INFINITY,
};

// A box widened to hold an image.
fn with_image(b: Aabb2, p: Vec2) -> Aabb2
    ensures { result ≡ from_two_aabbs_of b (point_of p) }
{
    aabb2_from::from_two_aabbs(
        b,
        Aabb2 {
            min_x: p.x,
            min_y: p.y,
            max_x: p.x,
            max_y: p.y,
        },
    )
}

// The corners: both low, low x and high y, high x and low y, both high. The source meets them in this order; the one of obb2_corners has another.
fn corners(b: Aabb2) -> [Vec2; 4]
    ensures { result ≡ corners_of b }
{
    [
        Vec2 {
            x: b.min_x,
            y: b.min_y,
        },
        Vec2 {
            x: b.min_x,
            y: b.max_y,
        },
        Vec2 {
            x: b.max_x,
            y: b.min_y,
        },
        Vec2 {
            x: b.max_x,
            y: b.max_y,
        },
    ]
}

// The box around the images of the four corners. A corner with no image is refused.
pub fn transform_homogeneous(b: Aabb2, m: Mat3) -> Result<Aabb2, Refusal>
    ensures { result ≡ transform_homogeneous_of b m }
{
    let mut wider = NO_POINTS;
    for p in corners(b) {
        let image = mat3::transform_homogeneous(m, p).ok_or(Refusal::NoImage)?;
        wider = with_image(wider, image);
    }
    Ok(wider)
}

// The transform that scales both axes by 1 / (the longer edge) and takes the box's centre to that of the unit square.
pub fn to_transformation_world2unit_ortho_preserve_asp(b: Aabb2) -> Mat3
    ensures { result ≡ to_transformation_world2unit_ortho_preserve_asp_of b }
{
    let c = center(b);
    let a = 1.0 / max_edge_size(b);
    Mat3 {
        m00: a,
        m10: 0.0,
        m20: 0.0,
        m01: 0.0,
        m11: a,
        m21: 0.0,
        m02: -a * c.x + 0.5,
        m12: -a * c.y + 0.5,
        m22: 1.0,
    }
}

// Half the length of a range, times s.
fn reach(range: Range, s: f32) -> f32
    ensures { result ≡ reach range s }
{
    range.length() * 0.5 * s
}

// The box with its edges s times as long, about its centre.
pub fn scale(b: Aabb2, s: f32) -> Aabb2
    ensures { result ≡ scale_of b s }
{
    let c = center(b);
    let dx = reach(b.x_range(), s);
    let dy = reach(b.y_range(), s);
    Aabb2 {
        min_x: c.x - dx,
        min_y: c.y - dy,
        max_x: c.x + dx,
        max_y: c.y + dy,
    }
}

pub fn translate(b: Aabb2, t: Vec2) -> Aabb2
    ensures { result ≡ translate_of b t }
{
    Aabb2 {
        min_x: b.min_x + t.x,
        min_y: b.min_y + t.y,
        max_x: b.max_x + t.x,
        max_y: b.max_y + t.y,
    }
}
