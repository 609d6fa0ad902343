// Why a merge refuses what it is given: a refusal, and the list that it is told of.
ghost use Rattle.std.specs.Prelude.{◌≡◌};

use thiserror::Error;
use types::{Refusal, RefusalAt};

// One of the two lists that are merged, or the list that is made of them.
#[derive(Clone, Copy, Debug, PartialEq, Eq)]
pub enum MergeList {
    Merged = 0,
    First = 1,
    Second = 2,
}

impl MergeList {
    ghost use Rattle.hatch_merge.specs.Refusal.{number_of_list};

    // The number by which C knows the list.
    pub fn number(self) -> usize
        ensures { result ≡ number_of_list self }
    {
        self as usize
    }
}

// A refusal of a merge. Its place is a byte of the list, and 0 in the merged list.
#[derive(Clone, Copy, Debug, PartialEq, Eq, Error)]
#[error("{at}")]
pub struct RefusalIn {
    pub list: MergeList,
    pub at: RefusalAt,
}

// A refusal of the merged list.
impl From<Refusal> for RefusalIn {
    ghost use Rattle.hatch_merge.specs.Refusal.{of_merged};

    ghost from_gives = { λ refusal told. told ≡ of_merged refusal };

    fn from(refusal: Refusal) -> RefusalIn {
        RefusalIn {
            list: MergeList::Merged,
            at: RefusalAt::from(refusal),
        }
    }
}
