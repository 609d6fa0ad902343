// The image over which a stroke is walked.
ghost use Rattle.std.specs.Prelude.{◌≡◌, ◌≤◌};
ghost use Rattle.types.specs.declared.side.TheConstants.{SIDE_MAX};
ghost use Rattle.stroke.specs.Image.{on_side_of, in_sides_of};

use types::Vec2;

// A side has at most 16,384 pixels, so that it is exact as a float and the number of a pixel fits.
#[derive(Clone, Copy, Debug, PartialEq, Eq)]
pub struct Image {
    pub width: usize,
    pub height: usize,
    pub ghost wide: { width ≤ SIDE_MAX },
    pub ghost high: { height ≤ SIDE_MAX },
}

// Whether x is at least 0 and below the side.
fn on_side(side: f32, x: f32) -> bool
    ensures { result ≡ on_side_of side x }
{
    (x >= 0.0) & (x < side)
}

// Whether p is in an image with these sides.
fn in_sides(wide: f32, high: f32, p: Vec2) -> bool
    ensures { result ≡ in_sides_of wide high p }
{
    on_side(wide, p.x) & on_side(high, p.y)
}

impl Image {
    ghost use Rattle.stroke.specs.Image.{on_image};

    // Whether p is in the image.
    pub fn contains(self, p: Vec2) -> bool
        ensures { result ≡ on_image self.width self.height p }
    {
        in_sides(self.width as f32, self.height as f32, p)
    }
}
