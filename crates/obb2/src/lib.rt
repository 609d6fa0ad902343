// Turned boxes: each routine under its name, whichever crate has it.
#![tactic(auto)]

pub use obb2_corners::corner_points;
pub use obb2_intersect::{is_intersect_aabb2, is_intersect_obb2};
pub use obb2_point::{is_include_point2, nearest_point2};
