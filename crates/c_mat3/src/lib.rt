// Transforms.
#![tactic(auto)]

ghost use Rattle.std.specs.Prelude.{◌≡◌};
ghost use Rattle.c_answers.specs.Answers.{optional_point_answer_of};
ghost use Rattle.mat3.specs.Values.{transform_homogeneous_of};

use c_answers::PointAnswer;
use types::{Mat3, Vec2};

// The image of `p`: `m` times (p.x, p.y, 1), divided by its third component. None if that component, as computed, is a zero.
// Example: (1, 0, 0, 0, 1, 0, 2, 3, 1), (4, 5) gives (6, 8).
#[unsafe(no_mangle)]
pub extern "C" fn bgz_mat3_transform_homogeneous(m: Mat3, p: Vec2) -> PointAnswer
    ensures { result ≡ optional_point_answer_of (transform_homogeneous_of m p) }
{
    PointAnswer::from(mat3::transform_homogeneous(m, p))
}
