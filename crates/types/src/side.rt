// How large an image or a sheet may be.
ghost use Rattle.std.specs.Prelude.{◌≡◌};
ghost use Rattle.types.specs.Side.{sides_too_large_of};

// The longest side of an image, in pixels, and of a sheet, in tiles. It is exact as an f32, and the number of each pixel and tile fits a u32.
pub const SIDE_MAX: usize = 16384;

// Whether an image has a longer side.
pub fn sides_too_large(width: usize, height: usize) -> bool
    ensures { result ≡ sides_too_large_of width height }
{
    width > SIDE_MAX || height > SIDE_MAX
}
