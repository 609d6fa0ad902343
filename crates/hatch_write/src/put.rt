// The parts of a hatch list, each written to its place in the list. `at` is the byte at which a part begins.
ghost use Rattle.std.specs.Prelude.{◌≡◌, ◌+◌, ◌*◌, ◌<◌, ◌≤◌, length, map, take};
ghost use Rattle.std.proofs.lemmas.List.Edits.{sets};
ghost use Rattle.hatch_encode.specs.Encode.{word_bytes, joined, head_bytes};

use bits::Entry;
use hatch_format::{COUNT_AT, MARK_AT, VERSION_AT};

#[tactic(auto, using(lists::proofs::Fill::part_stored))]
fn put(out: &mut [u8], at: usize, bytes: &[u8])
    requires { at + length bytes.now ≤ length out.old }
    ensures { out.new ≡ sets out.old at bytes.now }
{
    out[at..at + bytes.len()].copy_from_slice(bytes);
}

pub(crate) fn put_head(out: &mut [u8], mark: &[u8], version: u16, count: u16)
    requires { (length mark.now ≡ 3) × (7 ≤ length out.old) }
    ensures { out.new ≡ sets out.old 0 (head_bytes mark.now version count) }
{
    put(out, MARK_AT, mark);
    put(out, VERSION_AT, &version.to_le_bytes());
    put(out, COUNT_AT, &count.to_le_bytes());
}

// Writes the bits of the entries, one after the other. The four bytes of each are taken by their place in the list, since no clause says what a list
// holds after `chunks_exact_mut`.
#[tactic(auto, using(crate::proofs::Stored::word_stored), unfolding(hatch_encode::specs::Encode::joined))]
pub(crate) fn put_entries<E: Entry>(out: &mut [u8], at: usize, entries: &[E])
    requires { at + 4 * length entries.now ≤ length out.old }
    ensures { out.new ≡ sets out.old at (joined word_bytes (map E.bits_of entries.now)) }
{
    for (k, entry) in entries.iter().enumerate() {
        put(out, at + 4 * k, &entry.to_word().to_le_bytes());
    }
}
