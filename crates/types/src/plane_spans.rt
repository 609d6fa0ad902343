// What an upright box spans in each dimension. Written for the plane and for space: a trait over both boxes would have the same lines.
ghost use Rattle.std.specs.Prelude.{◌≡◌};

use crate::shape::{Aabb2, Range};

impl Aabb2 {
    ghost use Rattle.types.specs.Aabb2.{x_range_of, y_range_of, is_ordered_of};

    pub fn x_range(self) -> Range
        ensures { result ≡ x_range_of self }
    {
        Range {
            low: self.min_x,
            high: self.max_x,
        }
    }

    pub fn y_range(self) -> Range
        ensures { result ≡ y_range_of self }
    {
        Range {
            low: self.min_y,
            high: self.max_y,
        }
    }

    // Whether both ranges are ordered.
    pub fn is_ordered(self) -> bool
        ensures { result ≡ is_ordered_of self }
    {
        self.x_range().is_ordered() && self.y_range().is_ordered()
    }
}
