// A turned box and a point: whether the box includes it, and the box's point nearest to it.
#![tactic(auto)]

ghost use Rattle.std.specs.Prelude.{◌≡◌};
ghost use Rattle.std.specs.Float.Ieee.{is_nan};
ghost use Rattle.obb2_point.specs.Point.{beyond_of, is_include_point2_of, on_edge_of, distance_of, nearer_of, chosen_of, nearest_point2_of};

use obb2_corners::{Frame, corner_points};
use types::{Obb2, Refusal, Vec2, Vector};

// Whether d, seen along the half edge v, lies past either end of the whole edge. A NaN lies past neither.
#[tactic(auto, unfolding(crate::specs::Point::beyond_of))]
fn beyond(d: Vec2, v: Vec2) -> bool
    ensures { result ≡ beyond_of d v }
{
    let vd = d.dot(v);
    let vv = v.dot(v);
    vd < -vv || vd > vv
}

// Whether the point lies past no end of either edge: a NaN counts as inside, as in the Rust.
#[tactic(auto, unfolding(crate::specs::Point::is_include_point2_of))]
pub fn is_include_point2(o: Obb2, p: Vec2) -> bool
    ensures { result ≡ is_include_point2_of o p }
{
    let Frame { c, u, v } = Frame::from(o);
    let d = p - c;
    !(beyond(d, u) || beyond(d, v))
}

// A point of the box's outline, and the square of its distance from the point asked about.
#[derive(Clone, Copy, Debug, PartialEq)]
struct Candidate {
    point: Vec2,
    square: f32,
}

// The point nearest to p on the edge from s to e, which crate edge2_nearest takes by its ends.
fn on_edge(s: Vec2, e: Vec2, p: Vec2) -> Candidate
    ensures { result ≡ on_edge_of p s e }
{
    let near = edge2_nearest::nearest_to_point(s, e, p);
    let point = near.point;
    Candidate {
        point,
        square: edge2_measure::squared_length(point, p),
    }
}

// Whether the distance, which is the square's root, is NaN.
fn nan_distance(c: Candidate) -> bool
    ensures { result ≡ is_nan (distance_of c) }
{
    !(c.square >= 0.0)
}

// The nearer of two, the first where they are equally near. Roots are slow, and a root is below another only if its square is.
#[tactic(auto, unfolding(crate::specs::Point::nearer_of))]
fn nearer(a: Candidate, b: Candidate) -> Candidate
    ensures { result ≡ nearer_of a b }
{
    if b.square < a.square {
        if root::sqrt(b.square) < root::sqrt(a.square) {
            return b;
        }
    }
    a
}

// The nearest of four, refused where a distance is NaN. The four are no list, since four tests with no jump between them and three comparisons are
// plainer than two folds.
#[tactic(auto, unfolding(crate::specs::Point::chosen_of))]
fn chosen(a: Candidate, b: Candidate, c: Candidate, d: Candidate) -> Result<Vec2, Refusal>
    ensures { result ≡ chosen_of a b c d }
{
    if nan_distance(a) | nan_distance(b) | nan_distance(c) | nan_distance(d) {
        return Err(Refusal::NanLength);
    }
    Ok(nearer(nearer(nearer(a, b), c), d).point)
}

// The point itself where the box includes it, and else the nearest point of the four edges. Refused where one of their distances is NaN.
#[tactic(auto, unfolding(crate::specs::Point::nearest_point2_of))]
pub fn nearest_point2(o: Obb2, p: Vec2) -> Result<Vec2, Refusal>
    ensures { result ≡ nearest_point2_of o p }
{
    if is_include_point2(o, p) {
        return Ok(p);
    }
    let [a, b, c, d] = corner_points(o);
    chosen(
        on_edge(a, b, p),
        on_edge(b, c, p),
        on_edge(c, d, p),
        on_edge(d, a, p),
    )
}
