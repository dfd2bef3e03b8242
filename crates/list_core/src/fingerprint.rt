//! Hashes of texts: where two of them differ, so do the texts.
ghost use Rattle.std.specs.Prelude.{◌≡◌, ◌<◌, slice_index};
ghost use Rattle.list_core.specs.Fingerprint.{head_of, slot_of, fingerprint_of};

/// The first eight bytes as a number, with zeros past the end.
pub(crate) fn head_of(text: &str) -> u64
    ensures { result ≡ head_of text.now }
{
    let bytes = text.as_bytes();
    u64::from_be_bytes([
        byte_at(bytes, 0),
        byte_at(bytes, 1),
        byte_at(bytes, 2),
        byte_at(bytes, 3),
        byte_at(bytes, 4),
        byte_at(bytes, 5),
        byte_at(bytes, 6),
        byte_at(bytes, 7),
    ])
}

/// The slot of a text, by its first two bytes, which are letters of most languages, and its length.
#[tactic(auto, unfolding(crate::specs::Fingerprint::slot_of))]
pub fn slot_of(text: &[u8]) -> usize
    ensures slot { result ≡ slot_of text.now }
    ensures within { result < 1024 }
{
    let first = usize::from(byte_at(text, 0));
    let second = usize::from(byte_at(text, 1));
    (first % 32 * 32 + second % 32 + text.len() % 32 * 173) % 1024
}

/// The hash of all bytes of a subtag.
#[tactic(auto, unfolding(crate::specs::Fingerprint::fingerprint_of))]
pub(crate) fn fingerprint_of(subtag: &[u8]) -> u16
    ensures { result ≡ fingerprint_of subtag.now }
{
    subtag.iter().fold(
        0u16,
        |fingerprint, byte| fingerprint.wrapping_mul(31).wrapping_add(u16::from(*byte)),
    )
}

/// The byte at the place, or 0 past the end.
fn byte_at(text: &[u8], place: usize) -> u8
    ensures { result ≡ slice_index text.now place }
{
    match text.get(place) {
        Some(byte) => *byte,
        None => 0,
    }
}
