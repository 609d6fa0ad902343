// Upright boxes in a flat list of floats, four to a box in the order of `Aabb2`'s fields: a view of a lent list.
#![tactic(auto)]

ghost use Rattle.std.specs.Prelude.{◌≡◌};
ghost use Rattle.aabb2_view.specs.Flat.{count_of, from_aabbs_of};

use types::{Aabb2, Refusal};

// A lent list, seen as boxes. aabb3_list has the same for six floats, with no view: what both share is the law of crate flat.
#[derive(Clone, Copy, Debug, PartialEq)]
pub struct Boxes<'a> {
    pub all: &'a [f32],
}

impl<'a> Boxes<'a> {
    // How many whole boxes the list has. Up to three floats after the last belong to no box.
    pub fn count(self) -> usize
        ensures { result ≡ count_of self.entry.all.now }
    {
        self.all.len() / 4
    }

    // The box at an index. An index that is not below the count is refused.
    #[tactic(auto, using(flat::proofs::Chunks::chunk_entry), unfolding(crate::specs::Flat::from_aabbs_of))]
    pub fn box_at(self, index: usize) -> Result<Aabb2, Refusal>
        ensures { result ≡ from_aabbs_of self.entry.all.now index }
    {
        let (boxes, _) = self.all.as_chunks::<4>();
        let &[min_x, min_y, max_x, max_y] = boxes.get(index).ok_or(Refusal::Index)?;
        Ok(Aabb2 {
            min_x,
            min_y,
            max_x,
            max_y,
        })
    }
}

// The same two for callers that have the list alone: C has no view.
pub fn count_aabbs(all: &[f32]) -> usize
    ensures { result ≡ count_of all.now }
{
    Boxes { all }.count()
}

pub fn from_aabbs(all: &[f32], index: usize) -> Result<Aabb2, Refusal>
    ensures { result ≡ from_aabbs_of all.now index }
{
    Boxes { all }.box_at(index)
}

// The list's first box.
pub fn from_slice(s: &[f32]) -> Result<Aabb2, Refusal>
    ensures { result ≡ from_aabbs_of s.now 0 }
{
    from_aabbs(s, 0)
}
