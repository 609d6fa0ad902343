// A stroke as its walk sees it: two axes, the positions, and whether the walk goes on at a position.
#![tactic(auto, unfolding(crate::specs::Walk::step_of, crate::specs::Walk::axis_from, crate::specs::Walk::within, crate::specs::Walk::in_ranges_of, crate::specs::Image::on_side_of, crate::specs::Image::in_sides_of))]

mod accepted;
mod axis;
mod image;
mod walk;

pub use accepted::Accepted;
pub use axis::Axis;
pub use image::Image;
pub use walk::Walk;
