// The numbers of an image's pixels.
ghost use Rattle.std.specs.Prelude.{◌≡◌, ◌≤◌, true};
ghost use Rattle.std.specs.Float.Ieee.{le, to_unsigned};
ghost use Rattle.float.specs.Rounded.{+0};
ghost use Rattle.rounded.specs.Size.{Size};
ghost use Rattle.stroke.specs.Image.{on_image};
ghost use Rattle.pixels.specs.Entries.{number};
ghost use Rattle.pixels.specs.Post.{Bounded};

use stroke::Image;
use types::Vec2;

// x cut to an integer, and 0 if x is negative.
#[tactic(auto, using(crate::proofs::Casts::cut_le))]
fn cut(x: f32) -> usize
    requires { Size 196610 x }
    ensures answers { result ≡ to_unsigned 64 x }
    ensures small { result ≤ 196610 }
{
    rounding::to_usize(x)
}

// The whole part of a number from 0 up. x + 2 ^ 20 is an f64 whose last 32 bits stand behind the point. std's cast and crate rounding's
// `whole_part`, which takes numbers from 1 up, cost more instructions.
fn whole_part(x: f32) -> u32
    requires size { Size 196610 x }
    requires sign { le +0 x ≡ true }
    ensures answers { result ≡ to_unsigned 64 x }
    ensures small { result ≤ 196610 }
{
    let bits = f64::to_bits(x as f64 + 1048576.0);
    (bits >> 32) as u32 - 0x4130_0000
}

// The number of a position in the image: row times width plus column.
pub(crate) fn pixel_inside(image: Image, p: Vec2) -> u32
    requires bounded { Bounded p }
    requires lies { on_image image.width image.height p ≡ true }
    ensures { result ≡ number image.width p }
{
    whole_part(p.y) * image.width as u32 + whole_part(p.x)
}

// The number of any position, in the image or not.
pub(crate) fn pixel(image: Image, p: Vec2) -> u32
    requires { Bounded p }
    ensures { result ≡ number image.width p }
{
    (cut(p.y) * image.width + cut(p.x)) as u32
}
