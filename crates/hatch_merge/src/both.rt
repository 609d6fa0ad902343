// The records of two lists as one list, those of the second behind those of the first.
ghost use Rattle.std.specs.Prelude.{◌≡◌, ◌<◌, ◌≤◌, [], length, get_or, All};

use hatch_format::{RECORD_BYTES, RECORDS_MAX};

// The most records of two lists.
pub(crate) const BOTH_MAX: usize = 2 * RECORDS_MAX;

// Neither list has more records than a file may have.
#[derive(Clone, Copy)]
pub(crate) struct Both<'a> {
    pub(crate) first: &'a [[u8; RECORD_BYTES]],
    pub(crate) second: &'a [[u8; RECORD_BYTES]],
    ghost firsts: { length first.now ≤ 2000 },
    ghost seconds: { length second.now ≤ 2000 },
    ghost wide_firsts: { All (λ r. length r ≡ 32) first.now },
    ghost wide_seconds: { All (λ r. length r ≡ 32) second.now },
}

impl<'a> Both<'a> {
    ghost use Rattle.hatch_merge.specs.Parts.{all_of};

    pub(crate) fn len(self) -> usize
        ensures { result ≡ length (all_of self.entry) }
    {
        self.first.len() + self.second.len()
    }

    pub(crate) fn at(self, k: usize) -> &'a [u8; RECORD_BYTES]
        requires { k < length (all_of self) }
        ensures { result.now ≡ get_or (all_of self.entry) k [] }
    {
        if k < self.first.len() {
            &self.first[k]
        } else {
            &self.second[k - self.first.len()]
        }
    }
}
