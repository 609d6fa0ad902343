// Little-endian numbers in the bytes of a file. `at` is the byte at which a number or a record begins.
ghost use Rattle.std.specs.Prelude.{◌≡◌, ◌+◌, ◌<◌, ◌≤◌, length};
ghost use Rattle.lists.specs.Places.{upto};
ghost use Rattle.hatch_format.specs.Bytes.{half_at, word_at, word_from};
ghost use Rattle.hatch_format.specs.Decode.{record_words_of, record_bits_of};

// The 16-bit number at a byte, as a usize.
pub(crate) fn half(bytes: &[u8], at: usize) -> usize
    requires { at + 2 ≤ length bytes.now }
    ensures { (result ≡ half_at bytes.now at) × (result < 65536) }
{
    u16::from_le_bytes([bytes[at], bytes[at + 1]]) as usize
}

// The 32-bit number at a byte.
fn word(bytes: &[u8], at: usize) -> u32
    requires { at + 4 ≤ length bytes.now }
    ensures { result ≡ word_at bytes.now at }
{
    u32::from_le_bytes([bytes[at], bytes[at + 1], bytes[at + 2], bytes[at + 3]])
}

// Eight 32-bit numbers, one after the other. They are written out, since a closure over their places would need a `requires` of its own.
#[tactic(auto, unfolding(lists::specs::Places::upto))]
fn words(bytes: &[u8; 32]) -> [u32; 8]
    ensures { result ≡ upto (word_from bytes.now 0) 8 }
{
    [
        word(bytes, 0),
        word(bytes, 4),
        word(bytes, 8),
        word(bytes, 12),
        word(bytes, 16),
        word(bytes, 20),
        word(bytes, 24),
        word(bytes, 28),
    ]
}

// The bits of the eight floats of the record at a byte, if the bytes do not end before it does.
#[tactic(auto, unfolding(crate::specs::Decode::record_words_of))]
fn record_words(bytes: &[u8], at: usize) -> Option<[u32; 8]>
    ensures { result ≡ record_words_of bytes.now at }
{
    let record = bytes.get(at..)?.first_chunk::<32>()?;
    Some(words(record))
}

// The bits of the eight floats of the record at a byte: zeros if the bytes end before it does.
#[tactic(auto, unfolding(crate::specs::Decode::record_words_of, crate::specs::Decode::record_bits_of))]
pub fn record_bits(bytes: &[u8], at: usize) -> [u32; 8]
    ensures { result ≡ record_bits_of bytes.now at }
{
    record_words(bytes, at).unwrap_or([0; 8])
}
