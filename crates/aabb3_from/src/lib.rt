// Boxes of space made from points and from other boxes. A box, a point and eps stand side by side as parameters, as in the source, in C and in
// ./ask: a struct of them would be made by each caller and taken apart at once.
#![tactic(auto)]

ghost use Rattle.std.specs.Prelude.{◌≡◌};
ghost use Rattle.aabb3_from.specs.From.{from_two_aabbs_of, set_as_cube_of, add_point_of};

use types::{Aabb3, Vec3};

// The box around two boxes. Each end goes by one comparison: where one of the two is a NaN, the second box's is taken.
pub fn from_two_aabbs(a: Aabb3, b: Aabb3) -> Aabb3
    ensures { result ≡ from_two_aabbs_of a b }
{
    Aabb3 {
        min_x: float::lesser(b.min_x, a.min_x),
        min_y: float::lesser(b.min_y, a.min_y),
        min_z: float::lesser(b.min_z, a.min_z),
        max_x: float::greater(b.max_x, a.max_x),
        max_y: float::greater(b.max_y, a.max_y),
        max_z: float::greater(b.max_z, a.max_z),
    }
}

// The cube around a point, eps away on each side. Any eps is taken. Written out, as crate aabb2_from has `around` for two components: a trait
// over both boxes for so few lines would be no plainer.
pub fn set_as_cube(p: Vec3, eps: f32) -> Aabb3
    ensures { result ≡ set_as_cube_of p eps }
{
    Aabb3 {
        min_x: p.x - eps,
        min_y: p.y - eps,
        min_z: p.z - eps,
        max_x: p.x + eps,
        max_y: p.y + eps,
        max_z: p.z + eps,
    }
}

// Each end by minimum or maximum with that of the cube around the point. Any eps is taken, and a NaN drops out.
pub fn add_point(b: Aabb3, p: Vec3, eps: f32) -> Aabb3
    ensures { result ≡ add_point_of b p eps }
{
    let cube = set_as_cube(p, eps);
    Aabb3 {
        min_x: float::min(b.min_x, cube.min_x),
        min_y: float::min(b.min_y, cube.min_y),
        min_z: float::min(b.min_z, cube.min_z),
        max_x: float::max(b.max_x, cube.max_x),
        max_y: float::max(b.max_y, cube.max_y),
        max_z: float::max(b.max_z, cube.max_z),
    }
}
