//! The rows of a document, shown to a sink as they are read.
ghost use Rattle.std.specs.Prelude.{◌≡◌, ◌++◌, ◌∷◌, [], IfSome, None, OnOk, option_map};
ghost use Rattle.std.specs.Bool.{Decides};
ghost use Rattle.json_docs.specs.FaultChecks.{OrMemory};
ghost use Rattle.json_docs.specs.declared.fault.DocCause.TheVariants.{NoMemory};
ghost use Rattle.catalogue.specs.Entries.{Entries, IsAboveAll};
ghost use Rattle.row_docs.specs.Fields.{IsAfter};
ghost use Rattle.row_docs.specs.Ascending.{cell_checks};
ghost use Rattle.site_docs.specs.inner.ShownRows.{HoldsShown, key_of};

use crate::sink::{CellRef, CellSink, LabelRef};
use cell_core::{Cell, Key, MessageId};
use json_docs::DocCause;
use lang_core::Lang;
use row_docs::{Cut, Rows, Version, entry_of_row};
use std::alloc::{AllocError, Global};
use std::marker::PhantomData;

/// What sees the cells of the rows, and the key of the last of them.
#[derive(Drop)]
pub(crate) struct ShownRows<'t, S> {
    /// None before the first row, and where there was no memory for it.
    pub(crate) sink: Option<S>,
    last: Option<RowKey>,
    text: PhantomData<&'t ()>,
}

/// The key of a row.
#[derive(Drop)]
struct RowKey {
    id: MessageId,
    lang: Lang,
}

impl<'t, S: Drop> ShownRows<'t, S> {
    /// Those of no row, without what sees them.
    pub(crate) fn new() -> ShownRows<'t, S> {
        ShownRows {
            sink: None,
            last: None,
            text: PhantomData,
        }
    }
}

/// Shows each cell.
impl<'t, S: CellSink<'t>> Rows<S> for ShownRows<'t, S> {
    ghost Checks = { cell_checks };

    ghost Holds = { HoldsShown S.Holds };

    fn restart(&mut self, alloc: Global, start: &S) {
        self.last = None;
        self.sink = match start.begin(alloc) {
            Ok(sink) => Some(sink),
            Err(_) => None,
        };
    }

    fn take(
        &mut self,
        alloc: Global,
        version: Version,
        place: usize,
        row: &Cut<'_>,
    ) -> Result<(), DocCause> {
        let (id, lang, cell) = entry_of_row(alloc, version, place, row)?.into_parts();
        if !is_after(&self.last, &id, &lang) {
            return Err(DocCause::CellOrder { row: place });
        }
        show(alloc, &id, &lang, cell, &mut self.sink)?;
        self.last = Some(RowKey { id, lang });
        Ok(())
    }
}

/// Whether the key is greater than the last one, where there is one.
fn is_after(last: &Option<RowKey>, id: &MessageId, lang: &Lang) -> bool
    ensures { Decides result
        (IsAfter (option_map key_of last.now) (id.now, lang.now)) }
{
    match last {
        None => true,
        Some(last) => last.id.cmp(id).then(last.lang.cmp(lang)).is_lt(),
    }
}

/// Shows the cell of a key to what sees it; refused where memory ran out for it (26).
fn show<'t, S: CellSink<'t>>(
    alloc: Global,
    id: &MessageId,
    lang: &Lang,
    cell: Cell,
    sink: &mut Option<S>,
) -> Result<(), AllocError>
    requires { IfSome sink.old (λ sink. (first : S) × (before : Entries) × S.Holds first sink before
        × IsAboveAll (id.now, lang.now) before) }
    ensures { OnOk result ((first : S) → (before : Entries)
        → IfSome sink.old (λ sink. S.Holds first sink before)
        → IsAboveAll (id.now, lang.now) before
        → IfSome sink.new (λ sink. S.Holds first sink
        (before ++ ((id.now, lang.now), cell) ∷ []))) }
{
    let Some(sink) = sink else {
        return Err(AllocError);
    };
    let Cell { stamp, label } = cell;
    let label = match label {
        Some(label) => LabelRef::Made(label),
        None => LabelRef::Deleted,
    };
    sink.see(
        alloc,
        CellRef {
            id,
            lang,
            stamp,
            label,
            row: None,
        },
    )
}
