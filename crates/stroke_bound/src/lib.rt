// How many entries a stroke makes at most, so that a list can be sized before it is walked.
#![tactic(auto, unfolding(crate::specs::Bound::larger_difference_of, crate::specs::Bound::pixels_bound_of, stroke_check::specs::Answer::if_accepted))]

mod bound;
mod difference;

pub use bound::{is_ample, pixels_bound};
