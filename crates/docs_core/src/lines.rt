//! The lines of an input, of which each is a document.
ghost use Rattle.std.specs.Prelude.{◌≡◌, ◌==◌, ◌∷◌, [], position, IfNone, IfSome};
ghost use Rattle.docs_core.specs.Lines.{AreDocuments, lines_of};

use memchr::memchr;

/// Iterates over the lines of a text. A line feed ends each line, and may be missing after the
/// last, so no bytes are no lines.
#[derive(Drop)]
pub struct Lines<'a> {
    rest: &'a [u8],
}

impl<'a> Lines<'a> {
    ghost use Rattle.docs_core.specs.Lines.{lines_left};

    /// The lines of this text.
    pub fn new(text: &'a [u8]) -> Lines<'a>
        ensures { lines_left result ≡ lines_of text.now }
    {
        Lines { rest: text }
    }
}

/// Each line without its line feed, in order.
impl<'a> Iterator for Lines<'a> {
    type Item = &'a [u8];

    ghost use Rattle.std.specs.Iterator.{YieldsFirstBy, item_count};
    ghost use Rattle.docs_core.specs.Lines.{lines_left};

    ghost next_gives = { YieldsFirstBy (λ x. x.now) lines_left };

    ghost remaining = { item_count lines_left };

    fn next(&mut self) -> Option<&'a [u8]> {
        let (line, rest) = cut_line(self.rest)?;
        self.rest = rest;
        Some(line)
    }
}

/// The two documents of an input: what comes before its first line feed, and what comes after it;
/// without a line feed all is document 1, and document 2 is empty.
pub fn two_documents(input: &[u8]) -> (&[u8], &[u8])
    ensures { AreDocuments input.now result.0.now result.1.now }
{
    match first_line_feed(input) {
        Some(at) => (&input[..at], &input[at + 1..]),
        None => (input, &input[input.len()..]),
    }
}

/// The first line, and the text after its line feed.
#[tactic(auto, using(crate::proofs::LinesLemmas::cuts))]
fn cut_line(text: &[u8]) -> Option<(&[u8], &[u8])>
    ensures none { IfNone result (lines_of text.now ≡ []) }
    ensures line { IfSome result (λ x. lines_of text.now ≡ x.0.now ∷ lines_of x.1.now) }
{
    if text.is_empty() {
        return None;
    }
    Some(two_documents(text))
}

/// The place of the first line feed.
fn first_line_feed(input: &[u8]) -> Option<usize>
    ensures { result ≡ position (λ byte. byte == 10) input.now }
{
    memchr(b'\n', input)
}
