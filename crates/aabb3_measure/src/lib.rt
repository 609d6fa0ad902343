// A box of space: its centre, edges and corners, and the box scaled about its centre.
#![tactic(auto, unfolding(crate::specs::Measure::xyz_from_hex_index_of, crate::specs::Measure::corner_at))]

ghost use Rattle.std.specs.Prelude.{◌≡◌};
ghost use Rattle.aabb_3.specs.Inside.{center_of};
ghost use Rattle.aabb3_measure.specs.Measure.{size_of, scale_of, volume_of, max_edge_size_of, xyz_from_hex_index_of};

use types::{Aabb3, Refusal, Vec3};

pub fn center(b: Aabb3) -> Vec3
    ensures { result ≡ center_of b }
{
    aabb_3::center(b)
}

// The lengths of the three edges.
pub fn size(b: Aabb3) -> Vec3
    ensures { result ≡ size_of b }
{
    Vec3 {
        x: b.x_range().length(),
        y: b.y_range().length(),
        z: b.z_range().length(),
    }
}

// The box with its edges s times as long, about its centre: an edge is multiplied by s and then halved.
pub fn scale(b: Aabb3, s: f32) -> Aabb3
    ensures { result ≡ scale_of b s }
{
    let c = center(b);
    let h = size(b) * s * 0.5;
    let low = c - h;
    let high = c + h;
    Aabb3 {
        min_x: low.x,
        min_y: low.y,
        min_z: low.z,
        max_x: high.x,
        max_y: high.y,
        max_z: high.z,
    }
}

pub fn volume(b: Aabb3) -> f32
    ensures { result ≡ volume_of b }
{
    let e = size(b);
    e.x * e.y * e.z
}

// The longest of the three edges, by comparisons: the later of two where neither is longer, or one is a NaN.
pub fn max_edge_size(b: Aabb3) -> f32
    ensures { result ≡ max_edge_size_of b }
{
    let e = size(b);
    float::greater(e.z, float::greater(e.y, e.x))
}

// The corner of a number: 0 to 3 round the face of low z from the low corner, x first, then 4 to 7 round the face of high z. A number
// above 7 is refused.
pub fn xyz_from_hex_index(b: Aabb3, index: usize) -> Result<Vec3, Refusal>
    ensures { result ≡ xyz_from_hex_index_of b index }
{
    let (x, y) = match index {
        0 | 4 => (b.min_x, b.min_y),
        1 | 5 => (b.max_x, b.min_y),
        2 | 6 => (b.max_x, b.max_y),
        3 | 7 => (b.min_x, b.max_y),
        _ => return Err(Refusal::Corner),
    };
    let z = if index < 4 { b.min_z } else { b.max_z };
    Ok(Vec3 { x, y, z })
}
