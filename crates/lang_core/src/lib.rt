//! Language tags (RFC 5646 section 2.1), language ranges (RFC 4647 section 2), and which range
//! matches which tag (RFC 4647 section 3).
//!
//! - [`Tag`] is a well-formed tag, [`Lang`] a tag or `@none`, [`Range`] an extended range.
//! - A tag gives its language, extlangs, script, region and variants as slices of its text.
//! - Ranges match tags by basic and by extended filtering, and give the texts that lookup tries.
//! - [`LangFault`] says why a text is refused, and where.
//!
//! Texts are stored in lower case and have at most 255 bytes. A parser finds every other fault
//! before it allocates. Only parsers and copies allocate. The text of a tag or a range of at most
//! 16 bytes is stored inline: that it is never refused for lack of memory is part of their
//! contracts.
//!
//! ```text
//! let tag = Tag::parse(alloc, b"de-Latn-DE")?;
//! let range = Range::parse_extended(alloc, b"de-*-DE")?;
//! tag.script()                  Some("latn")
//! range.matches_extended(&tag)  true
//! range.truncations()           "de-de", "de"
//! ```
//!
//! Not here: the registry of subtags (validity, preferred forms), canonical case, and distances
//! between languages.
#![tactic(auto)]

mod fault;
mod grammar;
mod irregular;
mod kind;
mod lang;
pub mod laws;
mod lookup_text;
mod lower_text;
mod matching;
mod parts;
mod pieces;
mod range;
mod range_syntax;
mod stage;
mod subtag;
mod subtags;
mod tag;
mod tag_table;
mod truncations;

pub use fault::LangFault;
pub use lang::Lang;
pub use range::Range;
pub use subtags::Subtags;
pub use tag::Tag;
pub use truncations::Truncations;
