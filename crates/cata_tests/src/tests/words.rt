//! Texts that the tests are written in: words between blanks, and lists between semicolons.

use std::test::Fail;

/// The words of a text, from the first on.
#[derive(Drop)]
pub struct Words<'a> {
    rest: &'a str,
}

impl<'a> Words<'a> {
    pub fn new(text: &'a str) -> Words<'a> {
        Words { rest: text }
    }

    /// The next word; the empty one where none is left.
    pub fn word(&mut self) -> &'a str {
        let (word, rest) = self.rest.split_once(" ").unwrap_or((self.rest, ""));
        self.rest = rest;
        word
    }

    /// The next word, a number.
    pub fn number(&mut self) -> Result<u64, Fail> {
        Ok(self.word().parse::<u64>()?)
    }

    /// The next word, a place.
    pub fn place(&mut self) -> Result<usize, Fail> {
        Ok(self.word().parse::<usize>()?)
    }

    /// All words that are left.
    pub fn rest(&self) -> &'a str {
        self.rest
    }
}

/// Whether a call gives what it should.
pub fn gives(found: Result<String, Fail>, wanted: &str) -> Result<(), Fail> {
    gives_in("it", found, wanted)
}

/// Whether a call gives what it should in the case of this name.
pub fn gives_in(case: &str, found: Result<String, Fail>, wanted: &str) -> Result<(), Fail> {
    let found = found?;
    if found.as_str() == wanted {
        Ok(())
    } else {
        Err(Fail::new(format_args!("{case} gives {found}")))
    }
}
