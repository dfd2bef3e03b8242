//! Many sites, merged into the first of them.
ghost use Rattle.std.specs.Prelude.{IfErr, MatchResult, OnOk};
ghost use Rattle.json_docs.specs.FaultChecks.{OrMemory};
ghost use Rattle.row_docs.specs.Reading.{no_memory};
ghost use Rattle.docs_core.specs.Merging.{IsMerged, RefusesMerge, RefusesOther};
ghost use Rattle.docs_core.specs.inner.Merging.{JoinsOther};

use crate::lines::{Lines, two_documents};
use cata_core::Site;
use json_docs::{Doc, DocFault};
use site_docs::{Checks, check_own, check_times, site_at, write_site};
use std::alloc::Global;

/// The document of the first site after it took the cells of all others, by their order. Each line
/// of the input is the document of a site; a line feed ends the last line too, or is missing there.
/// A row of another document than the first that fails a check refuses the whole; a deletion counts
/// too.
///
/// Refusals, in their order, of each document before the next one is read: a reader's with its
/// number, counted from 1; 29 with its first row whose time is greater than that of the checks; 30
/// with its first row that is an edit which the first site made and, as it is by then, lacks; 13
/// with the place in the first site as it is by then. Out of memory (26) may come before.
pub fn merge_documents(alloc: Global, sites: &[u8], checks: Checks) -> Result<Doc, DocFault>
    ensures { MatchResult result (IsMerged checks sites.now)
        (OrMemory no_memory (RefusesMerge checks sites.now)) }
{
    let (first, rest) = two_documents(sites);
    let mut site = site_at(alloc, 1, first)?;
    let mut document = 1usize;
    for other in Lines::new(rest) {
        document += 1;
        merge_document(alloc, &mut site, document, other, checks)?;
    }
    let doc = write_site(alloc, &site)?;
    Ok(doc)
}

/// Joins the cells of the site of the input document with this number.
fn merge_document(
    alloc: Global,
    site: &mut Site,
    document: usize,
    bytes: &[u8],
    checks: Checks,
) -> Result<(), DocFault>
    ensures ok { OnOk result (JoinsOther checks bytes.now site.old site.new) }
    ensures err { IfErr result (OrMemory no_memory
        (RefusesOther checks document site.old bytes.now)) }
{
    let other = site_at(alloc, document, bytes)?;
    check_times(document, other.catalogue(), checks.not_after)?;
    check_own(document, site, other.catalogue(), checks.own_edits)?;
    site.merge(alloc, other.catalogue())?;
    Ok(())
}
