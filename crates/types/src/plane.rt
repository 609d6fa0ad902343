// Arithmetic on vectors of the plane, by component. Written for the plane and for space: a list of components would lose their names, and a macro of
// the repository's own may write no impl.
ghost use Rattle.std.specs.Prelude.{◌≡◌};
ghost use Rattle.types.specs.Vec2.{add_of, sub_of, scale_of, dot_of};

use crate::shape::Vec2;
use crate::vector::Vector;
use std::ops::{Add, Mul, Sub};

impl Add for Vec2 {
    type Output = Vec2;

    ghost add_gives = { λ a b r. r ≡ add_of a b };

    fn add(self, other: Vec2) -> Vec2 {
        Vec2 {
            x: self.x + other.x,
            y: self.y + other.y,
        }
    }
}

impl Sub for Vec2 {
    type Output = Vec2;

    ghost sub_gives = { λ a b r. r ≡ sub_of a b };

    fn sub(self, other: Vec2) -> Vec2 {
        Vec2 {
            x: self.x - other.x,
            y: self.y - other.y,
        }
    }
}

// Each component times s.
impl Mul<f32> for Vec2 {
    type Output = Vec2;

    ghost mul_gives = { λ v s r. r ≡ scale_of v s };

    fn mul(self, s: f32) -> Vec2 {
        Vec2 {
            x: self.x * s,
            y: self.y * s,
        }
    }
}

impl Vector for Vec2 {
    ghost dot = { dot_of };

    fn dot(self, other: Vec2) -> f32 {
        self.x * other.x + self.y * other.y
    }
}
