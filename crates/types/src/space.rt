// Arithmetic on vectors of space, by component, as in the plane.
ghost use Rattle.std.specs.Prelude.{◌≡◌};
ghost use Rattle.types.specs.Vec3.{add_of, sub_of, scale_of, dot_of};

use crate::shape::Vec3;
use crate::vector::Vector;
use std::ops::{Add, Mul, Sub};

impl Add for Vec3 {
    type Output = Vec3;

    ghost add_gives = { λ a b r. r ≡ add_of a b };

    fn add(self, other: Vec3) -> Vec3 {
        Vec3 {
            x: self.x + other.x,
            y: self.y + other.y,
            z: self.z + other.z,
        }
    }
}

impl Sub for Vec3 {
    type Output = Vec3;

    ghost sub_gives = { λ a b r. r ≡ sub_of a b };

    fn sub(self, other: Vec3) -> Vec3 {
        Vec3 {
            x: self.x - other.x,
            y: self.y - other.y,
            z: self.z - other.z,
        }
    }
}

// Each component times s.
impl Mul<f32> for Vec3 {
    type Output = Vec3;

    ghost mul_gives = { λ v s r. r ≡ scale_of v s };

    fn mul(self, s: f32) -> Vec3 {
        Vec3 {
            x: self.x * s,
            y: self.y * s,
            z: self.z * s,
        }
    }
}

impl Vector for Vec3 {
    ghost dot = { dot_of };

    fn dot(self, other: Vec3) -> f32 {
        self.x * other.x + self.y * other.y + self.z * other.z
    }
}
