// The records that the second list adds: those that are neither in the first nor earlier in the second.
ghost use Rattle.std.specs.Prelude.{◌≤◌, length, take};
ghost use Rattle.hatch_merge.specs.Parts.{Adds};

use crate::both::{BOTH_MAX, Both};
use crate::repeats::{chain, is_repeat};
use hatch_format::RECORDS_MAX;

// Lists their numbers, from 0 on, and answers how many they are.
pub(crate) fn list(both: Both<'_>, numbers: &mut [u16; RECORDS_MAX]) -> usize
    ensures adds { Adds both.entry (take result numbers.new) }
    ensures few { result ≤ length both.entry.second.now }
{
    let mut before = [0; BOTH_MAX];
    chain(both, &mut before);
    let mut count = 0;
    for j in 0..both.second.len() {
        if !is_repeat(both, &before, both.first.len() + j) {
            numbers[count] = j as u16;
            count += 1;
        }
    }
    count
}
