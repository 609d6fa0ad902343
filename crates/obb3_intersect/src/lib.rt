// Whether two turned boxes of space meet, by fifteen axes: the first that separates their corners, or has a NaN projection, decides.
#![tactic(auto)]

ghost use Rattle.std.specs.Prelude.{◌≡◌, map};
ghost use Rattle.vec3.specs.Values.{cross_of};
ghost use Rattle.obb3_intersect.specs.Intersect.{unit_of, units_of};
ghost use Rattle.obb3_intersect.specs.Promise.{IsIntersectToObb3Promise};

use axes::verdict;
use obb3_corners::{Frame, corner_points};
use types::{Obb3, Refusal, Vec3};
use vec3::{cross, norm};

// The edge at length one.
fn unit(e: Vec3) -> Vec3
    ensures { result ≡ unit_of e }
{
    e * (1.0 / norm(e))
}

#[tactic(auto, unfolding(crate::specs::Intersect::units_of))]
fn units(o: Obb3) -> [Vec3; 3]
    ensures { result ≡ units_of o }
{
    let q = Frame::from(o);
    [q.u, q.v, q.w].map(unit)
}

// The cross products of an edge of one box with the edges of the other.
fn crosses(u: Vec3, vs: [Vec3; 3]) -> [Vec3; 3]
    ensures { result ≡ map (cross_of u) vs }
{
    vs.map(|v| cross(u, v))
}

// Whether two turned boxes meet; refused where a projection is NaN on an axis that is reached. Ranges whose computed ends are equal overlap.
// The edges of b and the cross products are worked out only where the search gets to them.
#[tactic(auto, using(crate::proofs::Parts::crosses_decide, crate::proofs::Parts::edge_ends, crate::proofs::Parts::later_decide, crate::proofs::Parts::none_left))]
pub fn is_intersect_to_obb3(a: Obb3, b: Obb3) -> Result<bool, Refusal>
    ensures { IsIntersectToObb3Promise a b result }
{
    let ps = corner_points(a);
    let qs = corner_points(b);
    let us = units(a);
    if !verdict(&ps, &qs, &us)? {
        return Ok(false);
    }
    let vs = units(b);
    if !verdict(&ps, &qs, &vs)? {
        return Ok(false);
    }
    for u in us {
        if !verdict(&ps, &qs, &crosses(u, vs))? {
            return Ok(false);
        }
    }
    Ok(true)
}
