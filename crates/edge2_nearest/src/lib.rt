// The nearest point of an edge. An edge is given by its two ends, as in the source, in C and in ./ask: a struct of the two would be made by
// each caller and taken apart at once.
#![tactic(auto)]

ghost use Rattle.std.specs.Prelude.{◌≡◌};
ghost use Rattle.edge2_nearest.specs.Nearest.{nearest_origin_of, nearest_to_point_of};

use types::{Vec2, Vector};

// A point of an edge, and its ratio along the edge.
#[repr(C)]
#[derive(Clone, Copy, Debug, PartialEq)]
pub struct OnEdge {
    // 0 at the first end, 1 at the second.
    pub ratio: f32,
    // Where it is.
    pub point: Vec2,
}

// The point nearest to the origin. An edge whose computed squared length is zero gives its midpoint, at one half. The products are written by
// component: the number stands first in each, as in the source, and `Vec2` times a number has it last.
#[tactic(auto, unfolding(crate::specs::Nearest::nearest_origin_of))]
pub fn nearest_origin(s: Vec2, e: Vec2) -> OnEdge
    ensures { result ≡ nearest_origin_of s e }
{
    let d = e - s;
    let a = d.dot(d);
    if a == 0.0 {
        return OnEdge {
            ratio: 0.5,
            point: (s + e) * 0.5,
        };
    }
    let b = d.dot(s);
    let ratio = float::clamp(-b / a, 0.0, 1.0);
    OnEdge {
        ratio,
        point: Vec2 {
            x: (-ratio + 1.0) * s.x + ratio * e.x,
            y: (-ratio + 1.0) * s.y + ratio * e.y,
        },
    }
}

// The point nearest to p: seen from p, that is the point nearest to the origin.
#[tactic(auto, unfolding(crate::specs::Nearest::nearest_to_point_of))]
pub fn nearest_to_point(s: Vec2, e: Vec2, p: Vec2) -> OnEdge
    ensures { result ≡ nearest_to_point_of s e p }
{
    let near = nearest_origin(s - p, e - p);
    OnEdge {
        ratio: near.ratio,
        point: near.point + p,
    }
}
