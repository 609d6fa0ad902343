// What vectors of the plane and of space share, for code that is written once for both.
ghost use Rattle.std.specs.Prelude.{◌≡◌, Float};

pub trait Vector: Copy {
    ghost dot: { Self → Self → Float };

    fn dot(self, other: Self) -> f32
        ensures { result ≡ dot self other };
}
