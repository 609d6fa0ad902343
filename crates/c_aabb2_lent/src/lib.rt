// A running box as C lends it.
#![tactic(auto)]

ghost use Rattle.std.specs.Prelude.{◌≡◌};
ghost use Rattle.aabb2_from.specs.From.{add_point_of};
ghost use Rattle.aabb2_lent.specs.Lent.{settled_of, answered_of};
ghost use Rattle.c_answers.specs.Status.{status_of};

use types::{Aabb2, Vec2};

// `b` widened where it stands to hold the box from `p` - `radius` to `p` + `radius`. A NaN is dropped, as by minimum and maximum.
// Refused: `RADIUS` if `radius` is not at least 0, as with a NaN; `b` stays as it was.
// Example: (0, 0, 1, 1), (3, 0), 0 leaves (0, 0, 3, 1).
#[unsafe(no_mangle)]
pub extern "C" fn bgz_aabb2_add_point_lent(b: &mut Aabb2, p: Vec2, radius: f32) -> u32
    ensures answers { result ≡ status_of (answered_of (add_point_of b.old p radius)) }
    ensures leaves { b.new ≡ settled_of b.old (add_point_of b.old p radius) }
{
    c_answers::status(aabb2_lent::add_point(b, p, radius))
}
