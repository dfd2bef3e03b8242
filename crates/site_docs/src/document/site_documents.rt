//! Documents that name a site, read.
ghost use Rattle.std.specs.Prelude.{◌≡◌, Some, MatchResult, IfOk, IfErr};
ghost use Rattle.serde_json.specs.Data.{Data};
ghost use Rattle.json_docs.specs.FaultChecks.{AllPass, AreJson, FirstFails, IsRefusal, OrMemory};
ghost use Rattle.json_docs.specs.declared.fault.DocCause.TheVariants.{NoMemory};
ghost use Rattle.catalogue.specs.Entries.{Entries};
ghost use Rattle.row_docs.specs.Headers.{IsSubject, rows_in, version_of};
ghost use Rattle.row_docs.specs.Ascending.{MakesEntries, cell_checks, entry_in};
ghost use Rattle.site_docs.specs.Reading.{ReadsAsDelta, ReadsAsSite, ReadsAsSummary, RefusesDelta};
ghost use Rattle.site_docs.specs.Reading.{RefusesSite, RefusesSummary};
ghost use Rattle.row_docs.specs.ShapesRows.{site_in};
ghost use Rattle.site_docs.specs.SiteDocuments.{document_checks, named_in, subject_checks};
ghost use Rattle.row_docs.specs.declared.version.Version.TheVariants.{One, Two};

use crate::document::shown_rows::ShownRows;
use crate::plain::documents::cells_of_plain;
use crate::plain::stamps::summary_of_plain;
use crate::sink::CellSink;
use cata_core::{Catalogue, Delta, Site, Summary};
use cell_core::SiteName;
use json_docs::{DocCause, Spot};
use row_docs::{Kind, Rows, Subject, Version, read_header};
use std::alloc::Global;

/// The site of a document, or why it is refused.
pub(crate) fn site_from(alloc: Global, bytes: &[u8]) -> Result<Site, DocCause>
    ensures { MatchResult result (ReadsAsSite bytes.now)
        (OrMemory NoMemory (RefusesSite bytes.now)) }
{
    match cells_of_plain(alloc, bytes, Kind::Site) {
        Some((name, cells)) => Ok(Site::from_catalogue(name, cells)),
        None => site_of_members(alloc, bytes),
    }
}

/// The delta of a document, or why it is refused.
pub(crate) fn delta_from(alloc: Global, bytes: &[u8]) -> Result<Delta, DocCause>
    ensures { MatchResult result (ReadsAsDelta bytes.now)
        (OrMemory NoMemory (RefusesDelta bytes.now)) }
{
    match cells_of_plain(alloc, bytes, Kind::Delta) {
        Some((to, cells)) => Ok(Delta::from_catalogue(to, cells)),
        None => delta_of_members(alloc, bytes),
    }
}

/// The summary of a document, or why it is refused.
pub(crate) fn summary_from(alloc: Global, bytes: &[u8]) -> Result<Summary, DocCause>
    ensures { MatchResult result (ReadsAsSummary bytes.now)
        (OrMemory NoMemory (RefusesSummary bytes.now)) }
{
    match summary_of_plain(alloc, bytes) {
        Some(summary) => Ok(summary),
        None => summary_of_members(alloc, bytes),
    }
}

/// The site of a document in any form.
fn site_of_members(alloc: Global, bytes: &[u8]) -> Result<Site, DocCause>
    ensures { MatchResult result (ReadsAsSite bytes.now)
        (OrMemory NoMemory (RefusesSite bytes.now)) }
{
    let (name, cells) = show_members(alloc, bytes, Kind::Site, &Catalogue::new(alloc))?;
    Ok(Site::from_catalogue(name, cells))
}

/// The delta of a document in any form.
fn delta_of_members(alloc: Global, bytes: &[u8]) -> Result<Delta, DocCause>
    ensures { MatchResult result (ReadsAsDelta bytes.now)
        (OrMemory NoMemory (RefusesDelta bytes.now)) }
{
    let (addressee, cells) = show_members(alloc, bytes, Kind::Delta, &Catalogue::new(alloc))?;
    Ok(Delta::from_catalogue(addressee, cells))
}

/// The summary of a document in any form.
fn summary_of_members(alloc: Global, bytes: &[u8]) -> Result<Summary, DocCause>
    ensures { MatchResult result (ReadsAsSummary bytes.now)
        (OrMemory NoMemory (RefusesSummary bytes.now)) }
{
    let start = SiteName::of_number(0);
    let mut summary = Summary::new(alloc, start);
    let owner = read_named(alloc, bytes, Kind::Summary, &start, &mut summary)?;
    Ok(summary.with_owner(owner))
}

/// Shows the cells of a document of this kind, in any form, to a sink as this one, and answers its
/// name, and the sink.
pub(crate) fn show_members<'t, S: CellSink<'t>>(
    alloc: Global,
    bytes: &[u8],
    kind: Kind,
    start: &S,
) -> Result<(SiteName, S), DocCause>
    ensures ok { IfOk result (λ shown. (d : Data) × AreJson bytes.now d
        × AllPass (document_checks kind cell_checks d) × (named_in kind d ≡ Some shown.0)
        × ((cells : Entries) × MakesEntries (entry_in (version_of d)) (rows_in kind d) cells
        × S.Holds start.now shown.1 cells)) }
    ensures err { IfErr result
        (OrMemory NoMemory (IsRefusal (document_checks kind cell_checks) bytes.now)) }
{
    let mut rows = ShownRows::new();
    let name = read_named(alloc, bytes, kind, start, &mut rows)?;
    let ShownRows { sink, .. } = rows;
    match sink {
        Some(sink) => Ok((name, sink)),
        None => Err(DocCause::NoMemory),
    }
}

/// Reads the rows, and answers the name.
fn read_named<C, R: Rows<C>>(
    alloc: Global,
    bytes: &[u8],
    kind: Kind,
    start: &C,
    rows: &mut R,
) -> Result<SiteName, DocCause>
    ensures ok { IfOk result (λ name. (d : Data) × AreJson bytes.now d
        × AllPass (document_checks kind R.Checks d) × (named_in kind d ≡ Some name)
        × R.Holds start.now (version_of d) rows.new (rows_in kind d)) }
    ensures err { IfErr result
        (OrMemory NoMemory (IsRefusal (document_checks kind R.Checks) bytes.now)) }
{
    let tested = read_header(alloc, bytes, kind, start, rows)?;
    let name = subject_name(tested.version, tested.subject)?;
    match tested.refusal {
        Some(cause) => Err(cause),
        None => Ok(name),
    }
}

/// The name of the site, as this version writes it.
fn subject_name(version: Version, subject: Subject) -> Result<SiteName, DocCause>
    ensures { (d : Data) → IsSubject subject d → MatchResult result
        (λ name. AllPass (subject_checks version d) × (site_in version d ≡ Some name))
        (FirstFails (subject_checks version d)) }
{
    match version {
        Version::One => numbered_name(subject),
        Version::Two => written_name(subject),
    }
}

/// The padded name of a number of 32 bits, in version 1.
fn numbered_name(subject: Subject) -> Result<SiteName, DocCause>
    ensures { (d : Data) → IsSubject subject d → MatchResult result
        (λ name. AllPass (subject_checks One d) × (site_in One d ≡ Some name))
        (FirstFails (subject_checks One d)) }
{
    match subject {
        Subject::Number(number) => match u32::try_from(number) {
            Ok(number) => Ok(SiteName::of_number(number)),
            Err(_) => Err(NO_DOCUMENT),
        },
        _ => Err(NO_DOCUMENT),
    }
}

/// The name, in version 2.
fn written_name(subject: Subject) -> Result<SiteName, DocCause>
    ensures { (d : Data) → IsSubject subject d → MatchResult result
        (λ name. AllPass (subject_checks Two d) × (site_in Two d ≡ Some name))
        (FirstFails (subject_checks Two d)) }
{
    match subject {
        Subject::Name(name) => Ok(name),
        Subject::NoName => Err(DocCause::SiteName),
        _ => Err(NO_DOCUMENT),
    }
}

/// It is no document of its kind.
const NO_DOCUMENT: DocCause = DocCause::Shape {
    spot: Spot::Document,
};
