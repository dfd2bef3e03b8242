//! The digest of a label: FNV-1a of 64 bits over the label as a row has it.
ghost use Rattle.std.specs.Prelude.{◌≡◌, ◌∷◌, [], IfOk, OnOk, string_bytes};
ghost use Rattle.row_docs.specs.EntriesValues.{label_value, texts_value};
ghost use Rattle.row_docs.specs.WritingTexts.{Adds, value_tokens};
ghost use Rattle.site_docs.specs.Sink.{texts_of};
ghost use Rattle.summary_docs.specs.Digest.{digest, fnv_1a};

use json::Writer;
use row_docs::write_texts;
use site_docs::LabelRef;
use std::alloc::{AllocError, Global};

/// What the hash of no byte is.
const OFFSET_BASIS: u64 = 14_695_981_039_346_656_037;

/// What each step multiplies by.
const PRIME: u64 = 1_099_511_628_211;

/// The digest of a label, or of a deletion: 16 hexadecimal digits in lower case.
///
/// Its one refusal is out of memory (26).
pub(crate) fn digest_of(alloc: Global, label: &LabelRef<'_>) -> Result<String, AllocError>
    ensures { IfOk result (λ text. string_bytes text ≡ digest (texts_of label.now)) }
{
    let mut out = Writer::new(Vec::new(alloc));
    write_label(&mut out, label)?;
    let text = out.into_inner();
    let hash = fnv_1a(text.as_slice());
    hex::encode(alloc, hash.to_be_bytes())
}

/// Adds the label as a row has it: null for a deletion, else the array of its texts.
fn write_label(out: &mut Writer, label: &LabelRef<'_>) -> Result<(), AllocError>
    ensures { OnOk result (Adds out.old out.new
        (value_tokens (label_value (texts_of label.now)))) }
{
    match label {
        LabelRef::Deleted => out.null(),
        LabelRef::Text(text) => write_text(out, text),
        LabelRef::Held(label) => write_texts(out, label.texts()),
        LabelRef::Made(label) => write_texts(out, label.texts()),
    }
}

/// Adds the array of one text.
fn write_text(out: &mut Writer, text: &str) -> Result<(), AllocError>
    ensures { OnOk result (Adds out.old out.new (value_tokens (texts_value (text.now ∷ [])))) }
{
    out.begin_array()?;
    out.string(text)?;
    out.end_array()
}

/// FNV-1a of 64 bits.
fn fnv_1a(bytes: &[u8]) -> u64
    ensures { result ≡ fnv_1a bytes.now }
{
    let mut hash = OFFSET_BASIS;
    for byte in bytes {
        hash ^= u64::from(*byte);
        hash = hash.wrapping_mul(PRIME);
    }
    hash
}
