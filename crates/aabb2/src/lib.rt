// Upright boxes of the plane: each routine under its name, whichever crate has it.
#![tactic(auto)]

pub use aabb2_change::{
    center, max_edge_size, scale, to_transformation_world2unit_ortho_preserve_asp,
    transform_homogeneous, translate,
};
pub use aabb2_distance::{is_include_point2, is_intersect_square, nearest_point2, sdf};
pub use aabb2_from::{add_point, from_point, from_two_aabbs, from_two_points};
pub use aabb2_raster::rasterize;
