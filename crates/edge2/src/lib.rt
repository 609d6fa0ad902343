// Edges, segments from one point to another: each routine under its name, whichever crate has it. An edge is given by its two ends, as in the
// source and in C: a struct of the two would be made by each caller and taken apart here.
#![tactic(auto)]

pub use edge2_inside::intersection_length_against_aabb2;
pub use edge2_measure::{
    culling_intersection, length, position_from_ratio, ratio_from_position, squared_length,
    unit_edge_vector,
};
pub use edge2_nearest::{OnEdge, nearest_origin, nearest_to_point};
