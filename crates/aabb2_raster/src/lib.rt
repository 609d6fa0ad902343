// The pixels whose centres lie in a box.
#![tactic(auto, unfolding(crate::specs::Raster::rasterize_of, types::specs::Side::sides_too_large_of))]

ghost use Rattle.std.specs.Prelude.{◌≡◌, ◌≤◌};
ghost use Rattle.aabb2_raster.specs.Raster.{first_pixel_of, end_pixel_of, rasterize_of};

use types::{Aabb2, Pixels, Refusal, SIDE_MAX, sides_too_large};

// The first pixel whose centre is not below low, from 0 on.
fn first_pixel(low: f32) -> usize
    ensures { result ≡ first_pixel_of low }
{
    rounding::to_usize(float::max(rounding::ceil(low - 0.5), 0.0))
}

// One past the last of `side` pixels whose centre is below high, and 0 where there is none.
fn end_pixel(high: f32, side: usize) -> usize
    requires { side ≤ SIDE_MAX }
    ensures { result ≡ end_pixel_of high side }
{
    rounding::to_usize(float::min(rounding::ceil(high - 0.5), side as f32))
}

// Pixel centres in the box, low edge in and high edge out. An image side above 16,384 is refused. The sides stand by themselves, as in the source
// and in C.
pub fn rasterize(b: Aabb2, width: usize, height: usize) -> Result<Pixels, Refusal>
    ensures { result ≡ rasterize_of b width height }
{
    if sides_too_large(width, height) {
        return Err(Refusal::Size);
    }
    Ok(Pixels {
        x0: first_pixel(b.min_x),
        y0: first_pixel(b.min_y),
        x1: end_pixel(b.max_x, width),
        y1: end_pixel(b.max_y, height),
    })
}
