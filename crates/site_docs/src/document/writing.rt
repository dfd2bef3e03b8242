//! The documents of sites, deltas and summaries, written.
ghost use Rattle.std.specs.Prelude.{◌≡◌, IfOk};
ghost use Rattle.cell_core.specs.Keyed.{IsMap};
ghost use Rattle.cell_core.specs.Entry.{key_cmp};
ghost use Rattle.site_docs.specs.Documents.{delta_text, site_text, summary_text};
ghost use Rattle.site_docs.specs.Reading.{ReadsAsDelta, ReadsAsSite, ReadsAsSummary};
ghost use Rattle.site_docs.specs.RowsDraft.{HoldsRows};
ghost use Rattle.site_docs.specs.inner.StampsDraft.{HoldsStamps};

use crate::rows_draft::RowsDraft;
use crate::stamps_draft::StampsDraft;
use cata_core::{Catalogue, Delta, Site, Summary};
use json_docs::Doc;
use std::alloc::{AllocError, Global};

/// The document of a site, version 2: its cells in ascending order of key, deletions among them. It
/// reads as this site.
///
/// Its one refusal is out of memory (26).
pub fn write_site(alloc: Global, site: &Site) -> Result<Doc, AllocError>
    ensures text { IfOk result (λ doc. doc ≡ site_text site.now) }
    ensures reads { IfOk result (λ doc. ReadsAsSite doc site.now) }
{
    let draft = rows_of(alloc, site.catalogue())?;
    draft.close(alloc, site.name())
}

/// The document of a delta, version 2. It reads as this delta.
///
/// Its one refusal is out of memory (26).
pub fn write_delta(alloc: Global, delta: &Delta) -> Result<Doc, AllocError>
    ensures text { IfOk result (λ doc. doc ≡ delta_text delta.now) }
    ensures reads { IfOk result (λ doc. ReadsAsDelta doc delta.now) }
{
    let draft = rows_of(alloc, delta.cells())?;
    draft.close_delta(alloc, delta.addressee())
}

/// The document of a summary, version 2: its stamps in ascending order of key. It reads as this
/// summary.
///
/// Its one refusal is out of memory (26).
pub fn write_summary(alloc: Global, summary: &Summary) -> Result<Doc, AllocError>
    ensures text { IfOk result (λ doc. doc ≡ summary_text summary.now) }
    ensures reads { IfOk result (λ doc. ReadsAsSummary doc summary.now) }
{
    let draft = stamps_of(alloc, summary)?;
    draft.close(alloc)
}

/// The document of a site or a delta with all its cells, not yet closed.
fn rows_of(alloc: Global, cells: &Catalogue) -> Result<RowsDraft, AllocError>
    ensures rows { IfOk result (λ draft. HoldsRows draft cells.now) }
    ensures map { IfOk result (λ _. IsMap key_cmp cells.now) }
{
    let mut draft = RowsDraft::new(alloc, 0)?;
    for (id, lang, cell) in cells.iter() {
        draft.add_cell(alloc, id, lang, cell)?;
    }
    Ok(draft)
}

/// The document of a summary with all its stamps, not yet closed.
fn stamps_of(alloc: Global, summary: &Summary) -> Result<StampsDraft, AllocError>
    ensures rows { IfOk result
        (λ draft. HoldsStamps draft summary.now.owner summary.now.stamps) }
    ensures map { IfOk result (λ _. IsMap key_cmp summary.now.stamps) }
{
    let mut draft = StampsDraft::new(alloc, summary.owner())?;
    for place in 0..summary.len() {
        if let Some((id, lang, stamp)) = summary.nth(place) {
            draft.add(alloc, id, lang, stamp)?;
        }
    }
    Ok(draft)
}
