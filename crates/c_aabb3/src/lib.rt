// Upright boxes of space: making, scaling and measuring them, what they hold and meet, and flat lists of them.
#![tactic(auto)]

ghost use Rattle.std.specs.Prelude.{◌≡◌};
ghost use Rattle.c_answers.specs.Answers.{box3_answer_of, point3_answer_of, bool_answer_of};
ghost use Rattle.aabb_3.specs.Inside.{center_of};
ghost use Rattle.aabb3.specs.From.{from_two_aabbs_of, set_as_cube_of, add_point_of};
ghost use Rattle.aabb3.specs.Measure.{size_of, scale_of, volume_of, max_edge_size_of, xyz_from_hex_index_of};
ghost use Rattle.aabb3.specs.Touch.{is_active_of, is_contain_of, is_intersect_of};
ghost use Rattle.aabb3.specs.Distance.{min_sq_dist_to_point3_of, is_possible_distance_of};
ghost use Rattle.aabb3.specs.Flat.{count_of, from_aabbs_of};

use c_answers::{BoolAnswer, Box3Answer, Point3Answer};
use types::{Aabb3, Vec3};

// The box around two boxes: the low end of `a` where it is below that of `b`, the high end where it is above that of `b`, and else the end of
// `b`. So a NaN of `a` drops out, and one of `b` stays.
// Example: (0, 0, 0, 1, 1, 1), (2, -1, 0, 3, 0, 2) gives (0, -1, 0, 3, 1, 2).
#[unsafe(no_mangle)]
pub extern "C" fn bgz_aabb3_from_two_aabbs(a: Aabb3, b: Aabb3) -> Aabb3
    ensures { result ≡ from_two_aabbs_of a b }
{
    aabb3::from_two_aabbs(a, b)
}

// The cube from `p` - `eps` to `p` + `eps`. Any `eps` is taken.
// Example: (3, 4, 5), 1 gives (2, 3, 4, 4, 5, 6).
#[unsafe(no_mangle)]
pub extern "C" fn bgz_aabb3_set_as_cube(p: Vec3, eps: f32) -> Aabb3
    ensures { result ≡ set_as_cube_of p eps }
{
    aabb3::set_as_cube(p, eps)
}

// `b` widened to the low ends `p` - `eps` and the high ends `p` + `eps`, by minimum and maximum. A NaN is dropped. Any `eps` is taken: with one below
// 0 the box need not hold `p`.
// Example: (0, 0, 0, 1, 1, 1), (3, 0, 0), 0 gives (0, 0, 0, 3, 1, 1).
#[unsafe(no_mangle)]
pub extern "C" fn bgz_aabb3_add_point(b: Aabb3, p: Vec3, eps: f32) -> Aabb3
    ensures { result ≡ add_point_of b p eps }
{
    aabb3::add_point(b, p, eps)
}

// (low + high) * 0.5, by component.
// Example: (0, 0, 0, 4, 2, 1) gives (2, 1, 0.5).
#[unsafe(no_mangle)]
pub extern "C" fn bgz_aabb3_center(b: Aabb3) -> Vec3
    ensures { result ≡ center_of b }
{
    aabb3::center(b)
}

// high - low, by component: the lengths of the edges.
// Example: (0, 0, 0, 4, 2, 1) gives (4, 2, 1).
#[unsafe(no_mangle)]
pub extern "C" fn bgz_aabb3_size(b: Aabb3) -> Vec3
    ensures { result ≡ size_of b }
{
    aabb3::size(b)
}

// The box with the centre of `b` and edges `s` times as long: the centre's coordinate and, on either side of it, edge * `s` * 0.5.
// Example: (0, 0, 0, 4, 2, 2), 2 gives (-2, -1, -1, 6, 3, 3).
#[unsafe(no_mangle)]
pub extern "C" fn bgz_aabb3_scale(b: Aabb3, s: f32) -> Aabb3
    ensures { result ≡ scale_of b s }
{
    aabb3::scale(b, s)
}

// The product of the edges, x times y times z. The edge of a reversed dimension is negative.
// Example: (0, 0, 0, 4, 2, 3) gives 24.
#[unsafe(no_mangle)]
pub extern "C" fn bgz_aabb3_volume(b: Aabb3) -> f32
    ensures { result ≡ volume_of b }
{
    aabb3::volume(b)
}

// The longest edge, by comparisons: that of x if it is above that of y, else that of y; and this if it is above that of z, else that of z.
// So a NaN in x drops out, one in y drops out and x with it, and one in z is the answer.
// Example: (0, 0, 0, 4, 2, 3) gives 4.
#[unsafe(no_mangle)]
pub extern "C" fn bgz_aabb3_max_edge_size(b: Aabb3) -> f32
    ensures { result ≡ max_edge_size_of b }
{
    aabb3::max_edge_size(b)
}

// The corner of a number, as hexahedra number them: 0 to 3 are low in z, from the low corner along x and round the face; 4 to 7 are high in z
// and stand over them.
// Refused: `CORNER` if `index` is above 7.
// Example: (0, 0, 0, 4, 2, 1), 6 gives (4, 2, 1).
#[unsafe(no_mangle)]
pub extern "C" fn bgz_aabb3_xyz_from_hex_index(b: Aabb3, index: usize) -> Point3Answer
    ensures { result ≡ point3_answer_of (xyz_from_hex_index_of b index) }
{
    Point3Answer::from(aabb3::xyz_from_hex_index(b, index))
}

// Whether `b` is ordered in x, min_x <= max_x. y and z are not looked at.
// Example: (0, 0, 0, 4, 2, 1) gives true.
#[unsafe(no_mangle)]
pub extern "C" fn bgz_aabb3_is_active(b: Aabb3) -> bool
    ensures { result ≡ is_active_of b }
{
    aabb3::is_active(b)
}

// Whether `p` is in `b`, faces included: below no low end and above no high one. A NaN puts nothing outside: a coordinate or an end that is one
// does not bound its dimension. For `aabb_3::is_include_point` a NaN is outside.
// Example: (0, 0, 0, 4, 2, 1), (4, 1, 1) gives true.
#[unsafe(no_mangle)]
pub extern "C" fn bgz_aabb3_is_contain(b: Aabb3, p: Vec3) -> bool
    ensures { result ≡ is_contain_of b p }
{
    aabb3::is_contain(b, p)
}

// Whether two boxes meet, faces included: both are ordered in x, and in no dimension the low end of one is above the high end of the other. A
// NaN in y or z parts nothing.
// Example: (0, 0, 0, 1, 1, 1), (1, 1, 1, 2, 2, 2) gives true.
#[unsafe(no_mangle)]
pub extern "C" fn bgz_aabb3_is_intersect(a: Aabb3, b: Aabb3) -> bool
    ensures { result ≡ is_intersect_of a b }
{
    aabb3::is_intersect(a, b)
}

// The squared distance from `p` to the nearest point of `b`, 0 inside: each coordinate is raised to the low end and then lowered to the high one, by
// minimum and maximum, and the squares of what it moved are summed from 0. In a dimension in which `b` is reversed the nearest is the high end. A NaN
// in `p` gives a NaN, and so does an infinite coordinate that is not moved.
// Example: (0, 0, 0, 1, 1, 1), (3, 0.5, 0) gives 4.
#[unsafe(no_mangle)]
pub extern "C" fn bgz_aabb3_min_sq_dist_to_point3(b: Aabb3, p: Vec3) -> f32
    ensures { result ≡ min_sq_dist_to_point3_of b p }
{
    aabb3::min_sq_dist_to_point3(b, p)
}

// Whether two boxes of space may be no further apart than `threshold`: no if in x, y or z the gap between them is above it. The first
// dimension with a no or a refusal decides, in this order. Ranges that touch or overlap have no gap, whatever `threshold` is; with a NaN
// threshold no gap is above it.
// Refused: `ORDER` if a dimension is reached in which the range of `a` or of `b` is not low <= high, as with a NaN.
// Example: (0, 0, 0, 1, 1, 1), (3, 0, 0, 4, 1, 1), 1.5 gives false.
#[unsafe(no_mangle)]
pub extern "C" fn bgz_aabb3_is_possible_distance_to_aabb2_smaller_than_threshold(
    a: Aabb3,
    b: Aabb3,
    threshold: f32,
) -> BoolAnswer
    ensures { result ≡ bool_answer_of (is_possible_distance_of a b threshold) }
{
    BoolAnswer::from(aabb3::is_possible_distance_to_aabb2_smaller_than_threshold(a, b, threshold))
}

// How many whole boxes a flat list has: its length / 6, rounded down. Each box is min_x, min_y, min_z, max_x, max_y, max_z.
// Example: [0, 0, 0, 1, 1, 1, 2] gives 1.
#[unsafe(no_mangle)]
pub extern "C" fn bgz_aabb3_count(all: &[f32]) -> usize
    ensures { result ≡ count_of all.now }
{
    aabb3::count_aabbs(all)
}

// The box at an index of a flat list, from 0.
// Refused: `INDEX` if `index` is not below `aabb3::count`.
// Example: [0, 0, 0, 1, 1, 1, 2, 2, 2, 3, 3, 3], 1 gives (2, 2, 2, 3, 3, 3).
#[unsafe(no_mangle)]
pub extern "C" fn bgz_aabb3_from_aabbs(all: &[f32], index: usize) -> Box3Answer
    ensures { result ≡ box3_answer_of (from_aabbs_of all.now index) }
{
    Box3Answer::from(aabb3::from_aabbs(all, index))
}

// The first box of a flat list: the one at index 0.
// Refused: `INDEX` if the list has fewer than six floats.
// Example: [0, 0, 0, 1, 1, 1, 2] gives (0, 0, 0, 1, 1, 1).
#[unsafe(no_mangle)]
pub extern "C" fn bgz_aabb3_from_slice(s: &[f32]) -> Box3Answer
    ensures { result ≡ box3_answer_of (from_aabbs_of s.now 0) }
{
    Box3Answer::from(aabb3::from_slice(s))
}
