// Upright boxes of space: each routine under its name, whichever crate has it.
#![tactic(auto)]

pub use aabb3_distance::{
    is_possible_distance_to_aabb2_smaller_than_threshold, min_sq_dist_to_point3,
};
pub use aabb3_from::{add_point, from_two_aabbs, set_as_cube};
pub use aabb3_list::{count_aabbs, from_aabbs, from_slice};
pub use aabb3_measure::{center, max_edge_size, scale, size, volume, xyz_from_hex_index};
pub use aabb3_touch::{is_active, is_contain, is_intersect};
