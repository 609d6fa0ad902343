// The pixels along a stroke: a walk starts at its first end, adds at most a pixel to x and to y in each step, and numbers the positions in an image.
#![tactic(auto, unfolding(crate::specs::Entries::number, crate::specs::Limit::at_least, crate::specs::Limit::at_most, crate::specs::Limit::below, crate::specs::Limit::choice_of, crate::specs::Limit::misses_of))]

mod course;
mod limit;
mod number;
mod stretch;
mod walk;

pub use walk::{overlapping_pixels_dda, pixels_inside};
