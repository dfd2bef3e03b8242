//! Tags read by a table of states, with one look-up a byte (RFC 5646 section 2.1).
ghost use Rattle.std.specs.Prelude.{◌≡◌, ◌<◌};
ghost use Rattle.lang_core.specs.Text.{subtags};
ghost use Rattle.lang_core.specs.inner.TagTable.{byte_class, is_staged};

/// The class of each byte: "x" in any case 1, another letter 0, a digit 2, a hyphen 3, any other 4.
#[rattlefmt::skip]
static CLASSES: [u8; 256] = [
    4, 4, 4, 4, 4, 4, 4, 4, 4, 4, 4, 4, 4, 4, 4, 4, 4, 4, 4, 4, 4, 4, 4, 4, 4, 4, 4, 4, 4, 4, 4, 4,
    4, 4, 4, 4, 4, 4, 4, 4, 4, 4, 4, 4, 4, 3, 4, 4, 2, 2, 2, 2, 2, 2, 2, 2, 2, 2, 4, 4, 4, 4, 4, 4,
    4, 0, 0, 0, 0, 0, 0, 0, 0, 0, 0, 0, 0, 0, 0, 0, 0, 0, 0, 0, 0, 0, 0, 0, 1, 0, 0, 4, 4, 4, 4, 4,
    4, 0, 0, 0, 0, 0, 0, 0, 0, 0, 0, 0, 0, 0, 0, 0, 0, 0, 0, 0, 0, 0, 0, 0, 1, 0, 0, 4, 4, 4, 4, 4,
    4, 4, 4, 4, 4, 4, 4, 4, 4, 4, 4, 4, 4, 4, 4, 4, 4, 4, 4, 4, 4, 4, 4, 4, 4, 4, 4, 4, 4, 4, 4, 4,
    4, 4, 4, 4, 4, 4, 4, 4, 4, 4, 4, 4, 4, 4, 4, 4, 4, 4, 4, 4, 4, 4, 4, 4, 4, 4, 4, 4, 4, 4, 4, 4,
    4, 4, 4, 4, 4, 4, 4, 4, 4, 4, 4, 4, 4, 4, 4, 4, 4, 4, 4, 4, 4, 4, 4, 4, 4, 4, 4, 4, 4, 4, 4, 4,
    4, 4, 4, 4, 4, 4, 4, 4, 4, 4, 4, 4, 4, 4, 4, 4, 4, 4, 4, 4, 4, 4, 4, 4, 4, 4, 4, 4, 4, 4, 4, 4,
];

/// How many classes there are.
const CLASS_COUNT: usize = 5;

/// The state after a byte of each class, of each state in turn. In a state lies what was read last
/// and what is known of the subtag that is read; `tools/tag-table` prints the table.
#[rattlefmt::skip]
static NEXT: [u8; 370] = [
    0, 0, 0, 0, 0, 3, 2, 0, 0, 0, 37, 37, 0, 36, 0, 37, 37, 0, 0, 0,
    6, 5, 7, 0, 0, 44, 44, 9, 36, 0, 44, 44, 9, 31, 0, 10, 10, 8, 31, 0,
    12, 12, 46, 0, 0, 11, 11, 11, 0, 0, 12, 12, 12, 0, 0, 13, 13, 13, 0, 0,
    48, 48, 48, 0, 0, 49, 49, 49, 0, 0, 16, 15, 7, 0, 0, 53, 53, 9, 36, 0,
    53, 53, 9, 31, 0, 19, 18, 7, 0, 0, 55, 55, 9, 36, 0, 55, 55, 9, 31, 0,
    22, 21, 7, 0, 0, 57, 57, 9, 36, 0, 57, 57, 9, 31, 0, 47, 47, 13, 0, 0,
    26, 25, 7, 0, 0, 58, 58, 9, 36, 0, 58, 58, 9, 31, 0, 29, 28, 30, 0, 0,
    9, 9, 9, 36, 0, 9, 9, 9, 31, 0, 10, 10, 10, 31, 0, 32, 32, 32, 0, 0,
    59, 59, 59, 0, 0, 35, 34, 35, 0, 0, 59, 59, 59, 36, 0, 59, 59, 59, 31, 0,
    66, 66, 66, 0, 0, 38, 38, 0, 4, 0, 39, 39, 0, 4, 0, 40, 40, 0, 20, 0,
    41, 41, 0, 20, 0, 42, 42, 0, 20, 0, 43, 43, 0, 20, 0, 0, 0, 0, 20, 0,
    45, 45, 11, 27, 0, 47, 47, 13, 14, 0, 48, 48, 48, 27, 0, 49, 49, 49, 24, 0,
    49, 49, 49, 27, 0, 50, 50, 50, 27, 0, 51, 51, 51, 27, 0, 52, 52, 52, 27, 0,
    0, 0, 0, 27, 0, 54, 54, 11, 27, 0, 47, 47, 13, 17, 0, 56, 56, 11, 27, 0,
    47, 47, 13, 20, 0, 23, 23, 11, 27, 0, 11, 11, 11, 27, 0, 60, 60, 60, 33, 0,
    61, 61, 61, 33, 0, 62, 62, 62, 33, 0, 63, 63, 63, 33, 0, 64, 64, 64, 33, 0,
    65, 65, 65, 33, 0, 0, 0, 0, 33, 0, 67, 67, 67, 36, 0, 68, 68, 68, 36, 0,
    69, 69, 69, 36, 0, 70, 70, 70, 36, 0, 71, 71, 71, 36, 0, 72, 72, 72, 36, 0,
    73, 73, 73, 36, 0, 0, 0, 0, 36, 0,
];

/// The state before the first byte.
const START: u8 = 1;

/// The first of the states at which a tag may end.
const FIRST_COMPLETE: u8 = 37;

/// Whether the text is a tag by its stages, in any case. Irregular tags are none by their stages.
pub(crate) fn is_staged(text: &[u8]) -> bool
    ensures { result ≡ is_staged (subtags text.now) }
{
    let mut state = START;
    for byte in text {
        state = NEXT[usize::from(state) * CLASS_COUNT + usize::from(byte_class(*byte))];
    }
    state >= FIRST_COMPLETE
}

/// The class of the byte.
fn byte_class(byte: u8) -> u8
    ensures class { result ≡ byte_class byte }
    ensures small { result < 5 }
{
    CLASSES[usize::from(byte)]
}
