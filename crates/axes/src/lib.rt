// The search for a separating axis, in any dimension: the range of the corners' projections on an axis, whether two ranges lie apart, and the
// first axis on which they do.
#![tactic(auto)]

mod range;
mod search;

pub use range::{apart, widened};
pub use search::{first_separating, verdict};
