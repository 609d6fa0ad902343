// Upright boxes: making, changing and measuring them, their pixels and tiles, and flat lists of them.
#![tactic(auto)]

ghost use Rattle.std.specs.Prelude.{◌≡◌, length};
ghost use Rattle.lists.specs.Lent.{leaves};
ghost use Rattle.c_answers.specs.Answers.{box_answer_of, count_answer_of, point_answer_of, pixels_answer_of};
ghost use Rattle.c_answers.specs.Told.{Tells};
ghost use Rattle.aabb.specs.Inside.{is_include_point_of, center_of};
ghost use Rattle.tiles.specs.Answer.{sheet, overlapping_tiles_of};
ghost use Rattle.tiles.specs.Tiles.{tiles_of};
ghost use Rattle.tiles.specs.Promise.{TilesPromise};
ghost use Rattle.aabb2_view.specs.Flat.{count_of, from_aabbs_of};
ghost use Rattle.aabb2.specs.From.{from_point_of, from_two_points_of, from_two_aabbs_of, add_point_of};
ghost use Rattle.aabb2.specs.Raster.{rasterize_of};
ghost use Rattle.aabb2.specs.Change.{max_edge_size_of, transform_homogeneous_of, to_transformation_world2unit_ortho_preserve_asp_of, scale_of, translate_of};
ghost use Rattle.aabb2.specs.Distance.{is_intersect_square_of, nearest_point2_of, sdf_of};

use c_answers::{BoxAnswer, CountAnswer, PixelsAnswer, PointAnswer};
use types::{Aabb2, Mat3, Vec2};

// The box from `p` - `radius` to `p` + `radius`.
// Refused: `RADIUS` if `radius` is not at least 0, as with a NaN.
// Example: (3, 4), 1 gives (2, 3, 4, 5).
#[unsafe(no_mangle)]
pub extern "C" fn bgz_aabb2_from_point(p: Vec2, radius: f32) -> BoxAnswer
    ensures { result ≡ box_answer_of (from_point_of p radius) }
{
    BoxAnswer::from(aabb2::from_point(p, radius))
}

// The box from the minimum of `p` - `radius` and `q` - `radius` to the maximum of `p` + `radius` and `q` + `radius`, by component. Any radius is
// taken: one below 0 can reverse the box.
// Example: (0, 0), (3, 1), 1 gives (-1, -1, 4, 2).
#[unsafe(no_mangle)]
pub extern "C" fn bgz_aabb2_from_two_points(p: Vec2, q: Vec2, radius: f32) -> Aabb2
    ensures { result ≡ from_two_points_of p q radius }
{
    aabb2::from_two_points(p, q, radius)
}

// The box around two boxes: the minimum of the low corners and the maximum of the high ones, by component.
// Example: (0, 0, 1, 1), (2, -1, 3, 0) gives (0, -1, 3, 1).
#[unsafe(no_mangle)]
pub extern "C" fn bgz_aabb2_from_two_aabbs(a: Aabb2, b: Aabb2) -> Aabb2
    ensures { result ≡ from_two_aabbs_of a b }
{
    aabb2::from_two_aabbs(a, b)
}

// `b` widened to hold the box from `p` - `radius` to `p` + `radius`, by minimum and maximum. A NaN is dropped.
// Refused: `RADIUS` if `radius` is not at least 0, as with a NaN.
// Example: (0, 0, 1, 1), (3, 0), 0 gives (0, 0, 3, 1).
#[unsafe(no_mangle)]
pub extern "C" fn bgz_aabb2_add_point(b: Aabb2, p: Vec2, radius: f32) -> BoxAnswer
    ensures { result ≡ box_answer_of (add_point_of b p radius) }
{
    BoxAnswer::from(aabb2::add_point(b, p, radius))
}

// The pixels of an image of `width` by `height` whose centres lie in `b`, low edge in and high edge out. x0 and y0 are not held to the image: where
// x0 is not below x1, or y0 not below y1, there are none. A NaN at a low end counts as 0, and one at a high end as the whole side. A side may be 0.
// Refused: `SIZE` if `width` or `height` is above 16,384.
// Example: (0.25, 0.25, 2.5, 1.75), 8, 8 gives (0, 0, 2, 2).
#[unsafe(no_mangle)]
pub extern "C" fn bgz_aabb2_rasterize(b: Aabb2, width: usize, height: usize) -> PixelsAnswer
    ensures { result ≡ pixels_answer_of (rasterize_of b width height) }
{
    PixelsAnswer::from(aabb2::rasterize(b, width, height))
}

// The same as `aabb::center`.
// Example: (0, 0, 4, 2) gives (2, 1).
#[unsafe(no_mangle)]
pub extern "C" fn bgz_aabb2_center(b: Aabb2) -> Vec2
    ensures { result ≡ center_of b }
{
    aabb2::center(b)
}

// The longer of the two sides, high - low. A NaN is dropped, as by maximum.
// Example: (0, 0, 4, 2) gives 4.
#[unsafe(no_mangle)]
pub extern "C" fn bgz_aabb2_max_edge_size(b: Aabb2) -> f32
    ensures { result ≡ max_edge_size_of b }
{
    aabb2::max_edge_size(b)
}

// The box around the images of the four corners of `b` under `m`. A coordinate that is a NaN is left out. Where all four are, the box goes from
// +infinity to -infinity in that dimension.
// Refused: `NO_IMAGE` if a corner has none: see `mat3::transform_homogeneous`.
// Example: (0, 0, 1, 1), (2, 0, 0, 0, 2, 0, 1, 0, 1) gives (1, 0, 3, 2).
#[unsafe(no_mangle)]
pub extern "C" fn bgz_aabb2_transform_homogeneous(b: Aabb2, m: Mat3) -> BoxAnswer
    ensures { result ≡ box_answer_of (transform_homogeneous_of b m) }
{
    BoxAnswer::from(aabb2::transform_homogeneous(b, m))
}

// The transform that scales both axes by 1 / (the longer side) and takes the centre of `b` to (0.5, 0.5). It takes `b` into the unit square, but for
// rounding, where `b` is not reversed and the nine numbers are finite. A longer side of 0 gives infinities or NaN.
// Example: (0, 0, 4, 2) gives (0.25, 0, 0, 0, 0.25, 0, 0, 0.25, 1).
#[unsafe(no_mangle)]
pub extern "C" fn bgz_aabb2_to_transformation_world2unit_ortho_preserve_asp(b: Aabb2) -> Mat3
    ensures { result ≡ to_transformation_world2unit_ortho_preserve_asp_of b }
{
    aabb2::to_transformation_world2unit_ortho_preserve_asp(b)
}

// The same as `aabb::is_include_point`.
// Example: (0, 0, 4, 2), (5, 1) gives false.
#[unsafe(no_mangle)]
pub extern "C" fn bgz_aabb2_is_include_point2(b: Aabb2, p: Vec2) -> bool
    ensures { result ≡ is_include_point_of b p }
{
    aabb2::is_include_point2(b, p)
}

// Whether the square from `p` - `radius` to `p` + `radius` overlaps `b`: in x and in y, as computed, `radius` is above how far `p` lies from the
// middle of `b`, less half the length of `b`. Touching is not overlapping. A dimension in which that is a NaN parts nothing; where it is one in both,
// or `radius` is one, the answer is false.
// Example: (0, 0, 4, 2), (5, 1), 2 gives true.
#[unsafe(no_mangle)]
pub extern "C" fn bgz_aabb2_is_intersect_square(b: Aabb2, p: Vec2, radius: f32) -> bool
    ensures { result ≡ is_intersect_square_of b p radius }
{
    aabb2::is_intersect_square(b, p, radius)
}

// The point of `b` that is nearest to `p`; `p` itself if it is in `b`. A NaN in `p` is kept.
// Refused: `ORDER` if `b` is not low <= high in x, then in y, as with a NaN.
// Example: (0, 0, 4, 2), (6, 1) gives (4, 1).
#[unsafe(no_mangle)]
pub extern "C" fn bgz_aabb2_nearest_point2(b: Aabb2, p: Vec2) -> PointAnswer
    ensures { result ≡ point_answer_of (nearest_point2_of b p) }
{
    PointAnswer::from(aabb2::nearest_point2(b, p))
}

// The signed distance from `p` to the edge of `b`: positive outside, negative inside, but for rounding, if `b` is not reversed and the sum of its corners
// is finite in x and in y. A NaN is dropped, as by maximum.
// Example: (0, 0, 4, 2), (7, 6) gives 5.
#[unsafe(no_mangle)]
pub extern "C" fn bgz_aabb2_sdf(b: Aabb2, p: Vec2) -> f32
    ensures { result ≡ sdf_of b p }
{
    aabb2::sdf(b, p)
}

// `b` with its sides `s` times as long, about its centre. Ends are rounded, and may overflow. A negative `s` exchanges the low and the high ends.
// Example: (0, 0, 4, 2), 2 gives (-2, -1, 6, 3).
#[unsafe(no_mangle)]
pub extern "C" fn bgz_aabb2_scale(b: Aabb2, s: f32) -> Aabb2
    ensures { result ≡ scale_of b s }
{
    aabb2::scale(b, s)
}

// `b` moved by `t`.
// Example: (0, 0, 4, 2), (1, 1) gives (1, 1, 5, 3).
#[unsafe(no_mangle)]
pub extern "C" fn bgz_aabb2_translate(b: Aabb2, t: Vec2) -> Aabb2
    ensures { result ≡ translate_of b t }
{
    aabb2::translate(b, t)
}

// The tiles that `b` overlaps, on a sheet of `shape_width` by `shape_height` square tiles of side `size`. Columns go from floor(min_x / `size`) up to
// and with floor(max_x / `size`), each quotient rounded, and rows likewise; those off the sheet are skipped. A tile's number is row * `shape_width` +
// column. A tile holds its low edges and not its high ones, so a box that ends on a tile's high edge has the next tile too, if the sheet has one.
// Where the box is not reversed and each of its coordinates is zero or at least 2^-100 in size, the tiles are the smallest set of the sheet's tiles
// that covers the box: each point of it that has f32 coordinates and lies on the sheet. A box reversed in x has a column only if both ends lie in it,
// and likewise a row in y. A side of the shape may be 0.
// Writes the numbers, rising, to the start of `out` and answers how many; 0 is an answer too.
// Refused: `SIZE` if `size` is 0 or above 4,096, or `shape_width` or `shape_height` is above 16,384; `COORDINATE` if a coordinate
// of `b` is not finite or is above 1,048,576 in size; `ROOM` if `out` is shorter than the tiles.
// Example: (5, 5, 25, 12), 10, 4, 4, [0; 8] gives 6 and leaves [0, 1, 2, 4, 5, 6, 0, 0].
#[unsafe(no_mangle)]
pub extern "C" fn bgz_aabb2_overlapping_tiles(
    b: Aabb2,
    size: usize,
    shape_width: usize,
    shape_height: usize,
    out: &mut [u32],
) -> CountAnswer
    ensures answers { result ≡ count_answer_of (overlapping_tiles_of (sheet size shape_width shape_height) b (length out.old)) }
    ensures leaves { out.new ≡ leaves (overlapping_tiles_of (sheet size shape_width shape_height) b (length out.old)) (tiles_of (sheet size shape_width shape_height) b) out.old }
    ensures means { Tells count_answer_of result (λ answer. TilesPromise (sheet size shape_width shape_height) b out.old answer out.new) }
{
    CountAnswer::from(tiles::overlapping_tiles(b, size, shape_width, shape_height, out))
}

// How many whole boxes a flat list has: its length / 4, rounded down. Each box is min_x, min_y, max_x, max_y.
// Example: [0, 0, 1, 1, 2] gives 1.
#[unsafe(no_mangle)]
pub extern "C" fn bgz_aabb2_count(all: &[f32]) -> usize
    ensures { result ≡ count_of all.now }
{
    aabb2_view::count_aabbs(all)
}

// The box at an index of a flat list, from 0.
// Refused: `INDEX` if `index` is not below `aabb2::count`.
// Example: [0, 0, 1, 1, 2, 2, 3, 3], 1 gives (2, 2, 3, 3).
#[unsafe(no_mangle)]
pub extern "C" fn bgz_aabb2_from_aabbs(all: &[f32], index: usize) -> BoxAnswer
    ensures { result ≡ box_answer_of (from_aabbs_of all.now index) }
{
    BoxAnswer::from(aabb2_view::from_aabbs(all, index))
}

// The first box of a flat list.
// Refused: `INDEX` if the list has fewer than 4 floats.
// Example: [0, 0, 1, 1] gives (0, 0, 1, 1).
#[unsafe(no_mangle)]
pub extern "C" fn bgz_aabb2_from_slice(s: &[f32]) -> BoxAnswer
    ensures { result ≡ box_answer_of (from_aabbs_of s.now 0) }
{
    BoxAnswer::from(aabb2_view::from_slice(s))
}
