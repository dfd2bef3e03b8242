//! Language maps that are being written, label by label.
ghost use Rattle.std.specs.Prelude.{◌≡◌, ◌++◌, ◌∷◌, [], IfOk, IfSome, List, OnOk, Some};
ghost use Rattle.cell_core.specs.Keyed.{IsMap};
ghost use Rattle.cell_core.specs.Label.{IsLabel};
ghost use Rattle.cell_core.specs.MessageId.{IsMessageId};
ghost use Rattle.cell_core.specs.Entry.{key_cmp};
ghost use Rattle.row_docs.specs.WritingTexts.{Adds};
ghost use Rattle.map_docs.specs.WritingTexts.{AreWritten};
ghost use Rattle.map_docs.specs.Maps.{Labelled};
ghost use Rattle.map_docs.specs.WritingMaps.{opening_tokens};
ghost use Rattle.site_docs.specs.Sink.{IsLabelRef, texts_of};
ghost use Rattle.query_docs.specs.inner.Draft.{HasWritten, labelled_by};
ghost use Rattle.query_docs.specs.Exporting.{live_labels};

use cell_core::{Key, Label, MessageId};
use json::Writer;
use json_docs::Doc;
use lang_core::Lang;
use map_docs::{close_labels, open_labels, open_message, write_label, write_text};
use site_docs::{CellRef, CellSink, LabelRef};
use std::alloc::{AllocError, Global};

/// The language maps of some labels, without their end, and the message that is open.
#[derive(Drop)]
pub(crate) struct Draft {
    out: Writer,
    current: Option<MessageId>,
}

impl Draft {
    /// That of no label.
    pub(crate) fn new(alloc: Global) -> Result<Draft, AllocError>
        ensures { IfOk result (λ draft. HasWritten draft []) }
    {
        let out = open_labels(alloc)?;
        Ok(Draft { out, current: None })
    }

    /// Adds a label, in a message of its own unless that is the open one.
    pub(crate) fn add(
        &mut self,
        alloc: Global,
        id: &MessageId,
        lang: &Lang,
        label: &Label,
    ) -> Result<(), AllocError>
        ensures { OnOk result ((labels : List Labelled) → HasWritten self.old labels
            → HasWritten self.new (labels ++ ((id.now, lang.now), label.now) ∷ [])) }
    {
        self.reach(alloc, id)?;
        write_label(&mut self.out, lang, label)
    }

    /// Adds a label where there is one.
    pub(crate) fn add_seen(
        &mut self,
        alloc: Global,
        id: &MessageId,
        lang: &Lang,
        label: &LabelRef<'_>,
    ) -> Result<(), AllocError>
        requires { IsLabelRef label.now }
        ensures { OnOk result ((labels : List Labelled) → HasWritten self.old labels
            → HasWritten self.new (labels ++ labelled_by (id.now, lang.now) (texts_of label.now))) }
    {
        match label {
            LabelRef::Deleted => Ok(()),
            LabelRef::Text(text) => self.add_text(alloc, id, lang, text),
            LabelRef::Held(label) => self.add(alloc, id, lang, label),
            LabelRef::Made(label) => self.add(alloc, id, lang, label),
        }
    }

    /// Adds a label of one text.
    fn add_text(
        &mut self,
        alloc: Global,
        id: &MessageId,
        lang: &Lang,
        text: &str,
    ) -> Result<(), AllocError>
        requires { IsLabel (text.now ∷ []) }
        ensures { OnOk result ((labels : List Labelled) → HasWritten self.old labels
            → HasWritten self.new (labels ++ ((id.now, lang.now), text.now ∷ []) ∷ [])) }
    {
        self.reach(alloc, id)?;
        write_text(&mut self.out, lang, text)
    }

    /// Opens this message unless it is open.
    fn reach(&mut self, alloc: Global, id: &MessageId) -> Result<(), AllocError>
        ensures tokens { OnOk result
            (Adds self.old.out self.new.out (opening_tokens self.old.current id.now)) }
        ensures current { OnOk result (self.new.current ≡ Some id.now) }
        ensures id { OnOk result (IfSome self.old.current IsMessageId → IsMessageId id.now) }
    {
        if open_message(&mut self.out, self.current.as_ref(), id)? {
            self.current = Some(id.copy(alloc)?);
        }
        Ok(())
    }

    /// The document of the labels, and whether there is one.
    pub(crate) fn close(self) -> Result<(Doc, bool), AllocError>
        ensures { IfOk result (λ written. (labels : List Labelled) → HasWritten self labels
            → IsMap key_cmp labels → AreWritten labels written.0 written.1) }
    {
        let Draft { out, current } = self;
        let doc = close_labels(out, current.as_ref())?;
        Ok((doc, current.is_some()))
    }
}

/// Writes the live label of each cell.
impl<'t> CellSink<'t> for Draft {
    ghost Holds = { λ first draft seen. HasWritten draft (live_labels seen) };

    fn begin(&self, alloc: Global) -> Result<Draft, AllocError> {
        Draft::new(alloc)
    }

    #[inline(always)]
    fn see(&mut self, alloc: Global, cell: CellRef<'_, 't>) -> Result<(), AllocError> {
        self.add_seen(alloc, cell.id, cell.lang, &cell.label)
    }
}
