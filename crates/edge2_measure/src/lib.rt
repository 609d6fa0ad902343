// Lengths, directions and positions along an edge. An edge is given by its two ends, as in the source, in C and in ./ask: a struct of the two
// would be made by each caller and taken apart at once.
#![tactic(auto)]

ghost use Rattle.std.specs.Prelude.{◌≡◌};
ghost use Rattle.edge2_measure.specs.Measure.{length_of, squared_length_of, unit_edge_vector_of, position_from_ratio_of, ratio_from_position_of, culling_intersection_of};
ghost use Rattle.edge2_measure.specs.Measure.{spread_of, slack_of, below_of};

use types::{Vec2, Vector};

pub fn length(s: Vec2, e: Vec2) -> f32
    ensures { result ≡ length_of s e }
{
    vec2::length(s - e)
}

pub fn squared_length(s: Vec2, e: Vec2) -> f32
    ensures { result ≡ squared_length_of s e }
{
    vec2::squared_length(s - e)
}

// The edge's direction, of length one but for rounding. An edge of no length gives what the division gives.
pub fn unit_edge_vector(s: Vec2, e: Vec2) -> Vec2
    ensures { result ≡ unit_edge_vector_of s e }
{
    let d = e - s;
    let inverse = 1.0 / vec2::length(d);
    d * inverse
}

// The point at a ratio from p0, at 0, to p1, at 1. By component: the number stands first in each product, as in the source, and `Vec2` times a number
// has it last.
pub fn position_from_ratio(p0: Vec2, p1: Vec2, ratio: f32) -> Vec2
    ensures { result ≡ position_from_ratio_of p0 p1 ratio }
{
    Vec2 {
        x: (1.0 - ratio) * p0.x + ratio * p1.x,
        y: (1.0 - ratio) * p0.y + ratio * p1.y,
    }
}

// The Rust's formula, kept as it is: it measures q from the origin and divides by the edge's length.
pub fn ratio_from_position(ps: Vec2, pe: Vec2, q: Vec2) -> f32
    ensures { result ≡ ratio_from_position_of ps pe q }
{
    let v = pe - ps;
    v.dot(q) / vec2::length(v)
}

// How far apart two coordinates are.
fn spread(a: f32, b: f32) -> f32
    ensures { result ≡ spread_of a b }
{
    float::max(a, b) - float::min(a, b)
}

// How far two edges may lie apart and still count as touching: the sum of their spreads times EPSILON, 2 ^ -23.
fn slack(s0: Vec2, e0: Vec2, s1: Vec2, e1: Vec2) -> f32
    ensures { result ≡ slack_of s0 e0 s1 e1 }
{
    (spread(s0.x, e0.x) + spread(s0.y, e0.y) + spread(s1.x, e1.x) + spread(s1.y, e1.y))
        * f32::EPSILON
}

// Whether the range of a and b lies below that of c and d, by more than the slack. The four are coordinates of two edges in no order, so no `Range`
// has them.
fn below(slack: f32, a: f32, b: f32, c: f32, d: f32) -> bool
    ensures { result ≡ below_of slack a b c d }
{
    float::max(a, b) + slack < float::min(c, d)
}

// Whether the edges' boxes, widened by the slack, meet: where they do not, the edges cannot cross.
#[tactic(auto, unfolding(crate::specs::Measure::culling_intersection_of))]
pub fn culling_intersection(s0: Vec2, e0: Vec2, s1: Vec2, e1: Vec2) -> bool
    ensures { result ≡ culling_intersection_of s0 e0 s1 e1 }
{
    let d = slack(s0, e0, s1, e1);
    !(below(d, s1.x, e1.x, s0.x, e0.x)
        | below(d, s0.x, e0.x, s1.x, e1.x)
        | below(d, s1.y, e1.y, s0.y, e0.y)
        | below(d, s0.y, e0.y, s1.y, e1.y))
}
