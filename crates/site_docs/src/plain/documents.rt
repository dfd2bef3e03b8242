//! Whole documents of sites and deltas.
ghost use Rattle.std.specs.Prelude.{◌≡◌, ◌++◌, [], List, ℕ, IfSome, IsTrue, decimal};
ghost use Rattle.cell_core.specs.Keyed.{IsMap};
ghost use Rattle.cell_core.specs.SiteName.{IsSiteName};
ghost use Rattle.cell_core.specs.Entry.{key_cmp};
ghost use Rattle.catalogue.specs.Entries.{Entries};
ghost use Rattle.row_docs.specs.Kinds.{kind_text, subject_of};
ghost use Rattle.site_docs.specs.Plain.{IsEnd, IsPlainText, last_members};
ghost use Rattle.site_docs.specs.Reading.{ReadsAsSite};

use crate::plain::rows::next_cells;
use crate::sink::CellSink;
use cata_core::Catalogue;
use cell_core::SiteName;
use json_docs::text_in;
use row_docs::Kind;
use row_docs::plain_texts::{after, after_text, member_after, text_after};
use std::alloc::Global;

/// The name and the cells of a document of this kind, where the bytes are the text that is written
/// for them, with its last line feed or without.
///
/// `None` says nothing of the document: it may be valid in another form, it may be refused, or
/// memory ran out.
pub(crate) fn cells_of_plain(
    alloc: Global,
    bytes: &[u8],
    kind: Kind,
) -> Option<(SiteName, Catalogue)>
    ensures { IfSome result (λ r. IsPlainText kind bytes.now r.0 r.1) }
{
    let mut cells = Catalogue::new(alloc);
    let name = show_plain(alloc, bytes, kind, &mut cells)?;
    Some((name, cells))
}

/// Shows the cells of a site's document to the sink, and answers the name of the site, where the
/// bytes are the text that is written for them, with its last line feed or without.
///
/// `None` says nothing of the document, and the sink may have seen some cells: the document may be
/// valid in another form, it may be refused, or memory ran out.
pub(crate) fn show_written<'t, S: CellSink<'t>>(
    alloc: Global,
    bytes: &'t [u8],
    sink: &mut S,
) -> Option<SiteName>
    requires { (first : S) × S.Holds first sink.old [] }
    ensures { IfSome result (λ name. (cells : Entries)
        × ReadsAsSite bytes.now (record { name = name; cells = cells }) × IsMap key_cmp cells
        × ((first : S) → S.Holds first sink.old [] → S.Holds first sink.new cells)) }
{
    show_plain(alloc, bytes, Kind::Site, sink)
}

/// Shows the cells of a document of this kind to the sink, and answers its name.
pub(crate) fn show_plain<'t, S: CellSink<'t>>(
    alloc: Global,
    bytes: &'t [u8],
    kind: Kind,
    sink: &mut S,
) -> Option<SiteName>
    requires { (first : S) × S.Holds first sink.old [] }
    ensures { IfSome result (λ name. (cells : Entries) × IsPlainText kind bytes.now name cells
        × ((first : S) → S.Holds first sink.old [] → S.Holds first sink.new cells)) }
{
    let Ok(text) = text_in(bytes) else {
        return None;
    };
    let rest = member_after(text, "{", "cells")?;
    let rest = next_cells(alloc, rest, sink)?;
    last_name(rest, kind)
}

/// The name in the members after the rows.
pub(crate) fn last_name(text: &str, kind: Kind) -> Option<SiteName>
    ensures text { IfSome result (λ name. (end : List ℕ) × IsEnd end
        × (text.now ≡ last_members (kind_text kind) (subject_of kind) name end)) }
    ensures name { IfSome result (λ name. IsSiteName name) }
{
    let rest = member_after(text, ",", "kind")?;
    let rest = after_text(rest, "", kind.text())?;
    let rest = member_after(rest, ",", kind.subject())?;
    let (name, rest) = text_after(rest, "")?;
    let rest = member_after(rest, ",", "version")?;
    if !is_version(rest) {
        return None;
    }
    match SiteName::new(name) {
        Ok(name) => Some(name),
        Err(_) => None,
    }
}

/// Whether the text is the version, which is 2, and the end of the document.
pub(crate) fn is_version(text: &str) -> bool
    ensures { IsTrue result → (end : List ℕ) × IsEnd end × (text.now ≡ decimal 2 ++ end) }
{
    match after(text, "2") {
        Some(rest) => is_end(rest),
        None => false,
    }
}

/// Whether the text is the brace that ends a document, with a line feed or without.
fn is_end(text: &str) -> bool
    ensures { IsTrue result → IsEnd text.now }
{
    text == "}\n" || text == "}"
}
