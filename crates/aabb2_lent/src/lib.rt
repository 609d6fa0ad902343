// A running box, lent and widened where it stands: thin over `aabb2_from::add_point`, which takes and returns it by value.
#![tactic(auto)]

ghost use Rattle.std.specs.Prelude.{◌≡◌};
ghost use Rattle.aabb2_from.specs.From.{add_point_of};
ghost use Rattle.aabb2_lent.specs.Lent.{settled_of, answered_of};

use types::{Aabb2, Refusal, Vec2};

// Widens the lent box so that it has the point and radius around it. A radius that is not at least 0 is refused, and the
// box stays as it was.
pub fn add_point(b: &mut Aabb2, p: Vec2, radius: f32) -> Result<(), Refusal>
    ensures answers { result ≡ answered_of (add_point_of b.old p radius) }
    ensures leaves { b.new ≡ settled_of b.old (add_point_of b.old p radius) }
{
    *b = aabb2_from::add_point(*b, p, radius)?;
    Ok(())
}
