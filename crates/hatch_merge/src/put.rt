// Records, written one after the other. `at` is the byte at which the first begins.
ghost use Rattle.std.specs.Prelude.{◌≡◌, ◌+◌, ◌*◌, ◌<◌, ◌≤◌, length, All};
ghost use Rattle.std.proofs.lemmas.List.Edits.{sets};
ghost use Rattle.hatch_merge.specs.Parts.{flat, numbered};

use hatch_format::RECORD_BYTES;

// All of them. One copy of all bytes would be a call of memmove, and the archive needs no function from elsewhere but memset.
pub(crate) fn put_all(out: &mut [u8], at: usize, records: &[[u8; RECORD_BYTES]])
    requires { at + RECORD_BYTES * length records.now ≤ length out.old }
    ensures { out.new ≡ sets out.old at (flat records.now) }
{
    for (i, record) in records.iter().enumerate() {
        let start = at + RECORD_BYTES * i;
        out[start..start + RECORD_BYTES].copy_from_slice(record);
    }
}

// Those with these numbers.
pub(crate) fn put_numbered(
    out: &mut [u8],
    at: usize,
    records: &[[u8; RECORD_BYTES]],
    numbers: &[u16],
)
    requires inside { All (λ j. j < length records.now) numbers.now }
    requires room { at + RECORD_BYTES * length numbers.now ≤ length out.old }
    ensures { out.new ≡ sets out.old at (flat (numbered records.now numbers.now)) }
{
    for (i, j) in numbers.iter().enumerate() {
        let start = at + RECORD_BYTES * i;
        out[start..start + RECORD_BYTES].copy_from_slice(&records[*j as usize]);
    }
}
