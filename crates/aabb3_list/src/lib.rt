// Upright boxes of space in a flat list of floats, six to a box in the order of `Aabb3`'s fields.
#![tactic(auto)]

ghost use Rattle.std.specs.Prelude.{◌≡◌};
ghost use Rattle.aabb3_list.specs.Flat.{count_of, from_aabbs_of};

use types::{Aabb3, Refusal};

// How many whole boxes the list has. Up to five floats after the last belong to no box.
pub fn count_aabbs(all: &[f32]) -> usize
    ensures { result ≡ count_of all.now }
{
    all.len() / 6
}

// The box at an index. An index that is not below the count is refused.
#[tactic(auto, using(flat::proofs::Chunks::chunk_entry), unfolding(crate::specs::Flat::from_aabbs_of))]
pub fn from_aabbs(all: &[f32], index: usize) -> Result<Aabb3, Refusal>
    ensures { result ≡ from_aabbs_of all.now index }
{
    let (boxes, _) = all.as_chunks::<6>();
    let &[min_x, min_y, min_z, max_x, max_y, max_z] = boxes.get(index).ok_or(Refusal::Index)?;
    Ok(Aabb3 {
        min_x,
        min_y,
        min_z,
        max_x,
        max_y,
        max_z,
    })
}

// The list's first box.
pub fn from_slice(s: &[f32]) -> Result<Aabb3, Refusal>
    ensures { result ≡ from_aabbs_of s.now 0 }
{
    from_aabbs(s, 0)
}
