//! The rows of a site that a summary lacks.
ghost use Rattle.std.specs.Prelude.{◌≡◌, ◌++◌, ◌∷◌, [], IfOk, List, OnOk, drop, option_map};
ghost use Rattle.std.specs.FinMap.Entries.{find};
ghost use Rattle.cell_core.specs.Keyed.{IsMap};
ghost use Rattle.cell_core.specs.Entry.{EntryKey, key_cmp};
ghost use Rattle.catalogue.specs.Entries.{Entries};
ghost use Rattle.site_docs.specs.Reading.{IsDeltaText};
ghost use Rattle.site_docs.specs.RowsDraft.{HoldsRows};
ghost use Rattle.site_docs.specs.Sink.{IsLabelRef, IsRowOf, entry_of, texts_of};
ghost use Rattle.summary_docs.specs.LackedRows.{HoldsLacked};
ghost use Rattle.summary_docs.specs.inner.LackedRows.{IsPassed};
ghost use Rattle.summary_docs.specs.Shown.{KnownCell, is_lacked, is_of_another, known_in};
ghost use Rattle.summary_docs.specs.Shown.{lacked_of};
ghost use Rattle.summary_docs.specs.inner.ShownCells.{known_as};

use crate::digest::digest_of;
use crate::shown::{Known, ShownSummary};
use cell_core::{Key, MessageId, SiteName};
use json_docs::Doc;
use lang_core::Lang;
use site_docs::{CellRef, CellSink, LabelRef, RowsDraft};
use std::alloc::{AllocError, Global};
use std::cmp::Ordering;

/// The rows of the cells that a summary lacks, of those seen.
#[derive(Drop)]
pub struct LackedRows<'d> {
    summary: &'d ShownSummary,
    /// How many cells of the summary no cell to come has the key of.
    passed: usize,
    /// The room in bytes that a draft has which is begun.
    room: usize,
    draft: RowsDraft,
}

impl<'d> LackedRows<'d> {
    /// Those of no row. What is begun as these has room for a document of so many bytes.
    ///
    /// Its one refusal is out of memory (26).
    pub fn new(
        alloc: Global,
        summary: &'d ShownSummary,
        room: usize,
    ) -> Result<LackedRows<'d>, AllocError>
        ensures { IfOk result (λ rows. rows.summary.now ≡ summary.now) }
    {
        let draft = RowsDraft::new(alloc, 0)?;
        Ok(LackedRows {
            summary,
            passed: 0,
            room,
            draft,
        })
    }

    /// The document of the delta for the site of this name.
    ///
    /// Its one refusal is out of memory (26).
    pub fn close(self, alloc: Global, addressee: SiteName) -> Result<Doc, AllocError>
        ensures { (cells : Entries) (known : List (EntryKey × KnownCell))
            → HoldsLacked self.entry known cells → IsMap key_cmp cells
            → IfOk result (IsDeltaText (record {
              addressee = addressee;
              cells = lacked_of cells known;
            })) }
    {
        self.draft.close_delta(alloc, addressee)
    }
}

/// Writes the row of each cell that the summary lacks.
impl<'t, 'd> CellSink<'t> for LackedRows<'d> {
    ghost Holds = { λ first rows seen. (rows.summary.now ≡ first.summary.now)
        × HoldsLacked rows (known_in first.summary.now) seen };

    fn begin(&self, alloc: Global) -> Result<LackedRows<'d>, AllocError> {
        let draft = RowsDraft::new(alloc, self.room)?;
        Ok(LackedRows {
            summary: self.summary,
            passed: 0,
            room: self.room,
            draft,
        })
    }

    #[inline(always)]
    fn see(&mut self, alloc: Global, cell: CellRef<'_, 't>) -> Result<(), AllocError> {
        let (known, passed) = known_at(self.summary, self.passed, cell.id, cell.lang);
        self.passed = passed;
        add_if_lacked(alloc, &known, &cell, &mut self.draft)
    }
}

/// Adds the row of a cell, if a summary that shows this of its key lacks it.
fn add_if_lacked(
    alloc: Global,
    known: &Option<Known<'_>>,
    cell: &CellRef<'_, '_>,
    draft: &mut RowsDraft,
) -> Result<(), AllocError>
    requires label { IsLabelRef cell.now.label }
    requires row { IsRowOf cell.now }
    ensures { OnOk result ((cells : Entries) (known_cells : List (EntryKey × KnownCell))
        → option_map known_as known.now ≡ find key_cmp (entry_of cell.now).0 known_cells
        → HoldsRows draft.old (lacked_of cells known_cells)
        → HoldsRows draft.new (lacked_of (cells ++ entry_of cell.now ∷ []) known_cells)) }
{
    let lacked = is_lacked(alloc, known, cell)?;
    if !lacked {
        return Ok(());
    }
    draft.add(alloc, cell)
}

/// What the summary shows of the key, if it is among the cells from a place on, and the place
/// from which the greater keys are.
fn known_at<'d>(
    summary: &'d ShownSummary,
    start: usize,
    id: &MessageId,
    lang: &Lang,
) -> (Option<Known<'d>>, usize)
    ensures known { option_map known_as result.0
        ≡ find key_cmp (id.now, lang.now) (drop start (known_in summary.now)) }
    ensures passed { IsPassed (id.now, lang.now) (drop start (known_in summary.now))
        (drop result.1 (known_in summary.now)) }
{
    for place in start..summary.len() {
        let Some((other, other_lang, known)) = summary.nth(place) else {
            unreachable!()
        };
        match other.cmp(id).then(other_lang.cmp(lang)) {
            Ordering::Less => {}
            Ordering::Equal => return (Some(known), place + 1),
            Ordering::Greater => return (None, place),
        }
    }
    (None, summary.len())
}

/// Whether a summary that shows this of a key lacks a cell of it.
fn is_lacked(
    alloc: Global,
    known: &Option<Known<'_>>,
    cell: &CellRef<'_, '_>,
) -> Result<bool, AllocError>
    ensures { IfOk result (λ lacked. lacked
        ≡ is_lacked (option_map known_as known.now) (entry_of cell.now).1) }
{
    let Some(known) = known else {
        return Ok(true);
    };
    match known.stamp.cmp(&cell.stamp) {
        Ordering::Less => Ok(true),
        Ordering::Equal => is_of_another(alloc, known.digest, &cell.label),
        Ordering::Greater => Ok(false),
    }
}

/// Whether a digest that a summary shows is that of another label.
fn is_of_another(
    alloc: Global,
    shown: Option<&str>,
    label: &LabelRef<'_>,
) -> Result<bool, AllocError>
    ensures { IfOk result (λ another. another
        ≡ is_of_another (option_map (λ s. s.now) shown.entry) (texts_of label.now)) }
{
    match shown {
        Some(shown) => {
            let digest = digest_of(alloc, label)?;
            Ok(shown != digest.as_str())
        }
        None => Ok(false),
    }
}
