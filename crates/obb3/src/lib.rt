// Turned boxes of space: each routine under its name, whichever crate has it.
#![tactic(auto)]

pub use obb3_corners::corner_points;
pub use obb3_intersect::is_intersect_to_obb3;
pub use obb3_point::is_include_point;
