// What an upright box of space spans in each dimension, as in the plane.
ghost use Rattle.std.specs.Prelude.{◌≡◌};

use crate::shape::{Aabb3, Range};

impl Aabb3 {
    ghost use Rattle.types.specs.Aabb3.{x_range_of, y_range_of, z_range_of};

    pub fn x_range(self) -> Range
        ensures { result ≡ x_range_of self }
    {
        Range {
            low: self.min_x,
            high: self.max_x,
        }
    }

    pub fn y_range(self) -> Range
        ensures { result ≡ y_range_of self }
    {
        Range {
            low: self.min_y,
            high: self.max_y,
        }
    }

    pub fn z_range(self) -> Range
        ensures { result ≡ z_range_of self }
    {
        Range {
            low: self.min_z,
            high: self.max_z,
        }
    }
}
