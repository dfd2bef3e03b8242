//! The arguments of the command, as C passes them.
ghost use Rattle.std.specs.Prelude.{◌≡◌, map, string_bytes, IsUtf8, MatchResult};
ghost use Rattle.std_io.specs.IoError.{error_kind};
ghost use Rattle.command_c.specs.Words.{AreUtf8, LacksTexts};
ghost use Rattle.command_c.specs.inner.Words.{LacksText};

use std::alloc::Global;
use std::io;
use std::io::ErrorKind;

/// An argument: its bytes, of which no zero byte is the end.
#[repr(C)]
#[derive(Clone, Copy)]
pub struct Word<'a> {
    /// The bytes.
    pub text: &'a [u8],
}

/// The arguments as texts. Refused are one that is not UTF-8, as it is of a process, and lack of
/// memory.
pub(crate) fn texts_of(alloc: Global, words: &[Word<'_>]) -> io::Result<Vec<String>>
    ensures { let given = map (λ word. word.text.now) words.now in
        MatchResult result (λ texts. (map string_bytes texts.items ≡ given) × AreUtf8 given)
        (λ error. LacksTexts given (error_kind error)) }
{
    let mut texts = Vec::with_capacity(alloc, words.len())?;
    for word in words {
        texts.push(text_of(alloc, word.text)?)?;
    }
    Ok(texts)
}

/// An argument as a text.
fn text_of(alloc: Global, word: &[u8]) -> io::Result<String>
    ensures { MatchResult result (λ text. (string_bytes text ≡ word.now) × IsUtf8 word.now)
        (λ error. LacksText word.now (error_kind error)) }
{
    let Ok(text) = std::str::from_utf8(word) else {
        return Err(io::Error::from(ErrorKind::InvalidData));
    };
    Ok(String::from_str(alloc, text)?)
}
