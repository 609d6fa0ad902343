// How far a box of space is from a point, and whether it may be near another box. A box and a point stand side by side as parameters, as in the
// source, in C and in ./ask: a struct of the two would be made by each caller and taken apart at once.
#![tactic(auto)]

ghost use Rattle.std.specs.Prelude.{◌≡◌};
ghost use Rattle.aabb3_distance.specs.Distance.{square_of, min_sq_dist_to_point3_of, near_of, is_possible_distance_of};

use types::{Aabb3, Range, Refusal, Vec3};

// The square of how far a coordinate is moved to lie in a range.
fn square(range: Range, at: f32) -> f32
    ensures { result ≡ square_of range at }
{
    let d = at - float::min(float::max(at, range.low), range.high);
    d * d
}

// The squared distance from p to the nearest point of the box: 0 inside.
pub fn min_sq_dist_to_point3(b: Aabb3, p: Vec3) -> f32
    ensures { result ≡ min_sq_dist_to_point3_of b p }
{
    0.0 + square(b.x_range(), p.x) + square(b.y_range(), p.y) + square(b.z_range(), p.z)
}

// Whether the gap between two ranges is no more than threshold. A range that is not ordered is refused.
#[tactic(auto, unfolding(crate::specs::Distance::gap_answer))]
fn near(a: Range, b: Range, threshold: f32) -> Result<bool, Refusal>
    ensures { result ≡ near_of a b threshold }
{
    let gap = range::distance_to_range(a, b)?;
    Ok(!gap.is_some_and(|gap| gap > threshold))
}

// No where the boxes are further apart than threshold in some dimension, else yes. The first dimension with a no or a refusal decides.
#[tactic(auto, unfolding(crate::specs::Distance::unless_yes_of))]
pub fn is_possible_distance_to_aabb2_smaller_than_threshold(
    a: Aabb3,
    b: Aabb3,
    threshold: f32,
) -> Result<bool, Refusal>
    ensures { result ≡ is_possible_distance_of a b threshold }
{
    let is_near = near(a.x_range(), b.x_range(), threshold)?
        && near(a.y_range(), b.y_range(), threshold)?
        && near(a.z_range(), b.z_range(), threshold)?;
    Ok(is_near)
}
