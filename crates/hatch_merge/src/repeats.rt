// Whether a record stands earlier in a list. Only records with the same hash are compared. One pass over the list finds, for each record, the last
// one before it with its hash; from there the search goes back from one such record to the one before it. So the time grows with the number of records.
// Records that all have one hash are compared each with each.
ghost use Rattle.std.specs.Prelude.{◌≡◌, ◌<◌, [], length, get_or, take};
ghost use Rattle.std.specs.List.{list_any};
ghost use Rattle.hatch_merge.specs.Records.{same_bits};
ghost use Rattle.hatch_merge.specs.Parts.{all_of};
ghost use Rattle.hatch_merge.specs.Chains.{bucket_of, Chained};

use crate::both::{BOTH_MAX, Both};
use std::hash::{FoldHasher, Hasher};

// The number of no record, where records have numbers from 0 on.
const NONE: u16 = 4000;

const _: () = prove!(NONE as usize == BOTH_MAX);

// How many hashes there are.
const BUCKETS: usize = 4096;

// A hash of the bytes of a record. Records that differ may have the same.
fn bucket(bytes: &[u8]) -> usize
    ensures { (result ≡ bucket_of bytes.now) × (result < BUCKETS) }
{
    let mut hasher = FoldHasher::default();
    hasher.write(bytes);
    hasher.finish() as usize % BUCKETS
}

// Fills in, for each record, the last one before it with the same hash.
pub(crate) fn chain(both: Both<'_>, before: &mut [u16; BOTH_MAX])
    ensures { Chained (all_of both.entry) before.new }
{
    let mut last = [NONE; BUCKETS];
    for k in 0..both.len() {
        let own = bucket(both.at(k));
        before[k] = last[own];
        last[own] = k as u16;
    }
}

// Whether record k stands earlier in the list.
pub(crate) fn is_repeat(both: Both<'_>, before: &[u16; BOTH_MAX], k: usize) -> bool
    requires inside { k < length (all_of both) }
    requires chained { Chained (all_of both) before.now }
    ensures { result ≡ list_any (same_bits (get_or (all_of both.entry) k [])) (take k (all_of both.entry)) }
{
    let record = both.at(k);
    let mut earlier = before[k];
    while earlier < NONE {
        if record == both.at(earlier as usize) {
            return true;
        }
        earlier = before[earlier as usize];
    }
    false
}
