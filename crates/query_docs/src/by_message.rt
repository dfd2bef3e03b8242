//! Cells that are seen one after another, given on message by message.
ghost use Rattle.std.specs.Prelude.{◌≡◌, ◌++◌, ◌∷◌, [], IfOk, OnOk, Some};
ghost use Rattle.catalogue.specs.Entries.{Entries, Entry, IsAboveAll};
ghost use Rattle.query_docs.specs.inner.ByMessage.{AreLabelRefs, HasGiven, HasSeen, IsNextMessage};
ghost use Rattle.query_docs.specs.inner.ByMessage.{cells_of, entries_in, is_of};

use cell_core::{Key, MessageId, Stamp};
use lang_core::Lang;
use site_docs::{CellRef, CellSink, LabelRef};
use std::alloc::{AllocError, Global};

/// A cell of a message.
#[derive(Drop)]
pub(crate) struct MessageCell<'t> {
    /// The language.
    pub lang: Lang,
    /// The stamp.
    pub stamp: Stamp,
    /// The label.
    pub label: LabelRef<'t>,
}

/// Sees the cells of a site message by message, in ascending order of key.
pub(crate) trait MessageSink<'t>: Sized + Drop {
    /// The second value is what the first becomes by these cells.
    ghost Holds: { Self → Self → Entries → Type 0 };

    /// A sink as this one, before its first message.
    ///
    /// Its one refusal is out of memory (26).
    fn begin(&self, alloc: Global) -> Result<Self, AllocError>
        ensures { IfOk result (λ begun. Holds self.now begun []) };

    /// Sees all cells of one message more, whose id is greater than those before.
    ///
    /// Its one refusal is out of memory (26).
    fn see_message(
        &mut self,
        alloc: Global,
        id: &MessageId,
        cells: &[MessageCell<'t>],
    ) -> Result<(), AllocError>
        requires { AreLabelRefs cells.now }
        ensures { OnOk result ((first : Self) → (before : Entries) → Holds first self.old before
            → IsNextMessage before (cells_of id.now cells.now)
            → Holds first self.new (before ++ cells_of id.now cells.now)) };
}

/// The cells of the message that is read, and the sink of messages.
#[derive(Drop)]
pub(crate) struct ByMessage<'t, T> {
    sink: T,
    id: Option<MessageId>,
    cells: Vec<MessageCell<'t>>,
}

impl<'t, T: MessageSink<'t>> ByMessage<'t, T> {
    /// This sink, which saw no cells yet.
    pub(crate) fn new(alloc: Global, sink: T) -> ByMessage<'t, T>
        ensures sink { result.sink ≡ sink }
        ensures cells { entries_in result ≡ [] }
        ensures labels { AreLabelRefs result.cells.items }
    {
        ByMessage {
            sink,
            id: None,
            cells: Vec::new(alloc),
        }
    }

    /// The sink after all cells, those of the last message among them.
    pub(crate) fn finish(self, alloc: Global) -> Result<T, AllocError>
        requires { AreLabelRefs self.cells.items }
        ensures { IfOk result (λ sink. (first : T) → (seen : Entries)
            → HasSeen T.Holds first self.entry seen → T.Holds first sink seen) }
    {
        let mut last = self;
        last.end_message(alloc)?;
        let ByMessage { sink, .. } = last;
        Ok(sink)
    }

    /// Gives the cells of the message that was read to the sink.
    fn end_message(&mut self, alloc: Global) -> Result<(), AllocError>
        requires { AreLabelRefs self.old.cells.items }
        ensures cells { OnOk result (self.new.cells.items ≡ []) }
        ensures given { OnOk result ((first : T) → (before : Entries)
            → T.Holds first self.old.sink before → IsNextMessage before (entries_in self.old)
            → T.Holds first self.new.sink (before ++ entries_in self.old)) }
    {
        if let Some(id) = &self.id {
            self.sink.see_message(alloc, id, &self.cells)?;
        }
        self.cells.clear();
        Ok(())
    }

    /// Gives the cells of the message that was read to the sink, where this is another one; this is
    /// read from now on.
    fn reach(&mut self, alloc: Global, id: &MessageId) -> Result<(), AllocError>
        requires { AreLabelRefs self.old.cells.items }
        ensures id { OnOk result (self.new.id ≡ Some id.now) }
        ensures labels { OnOk result (AreLabelRefs self.new.cells.items) }
        ensures given { OnOk result ((first : T) → (seen : Entries) → (e : Entry)
            → e.0.0 ≡ id.now → IsAboveAll e.0 seen
            → HasGiven T.Holds first self.old.sink (entries_in self.old) seen
            → HasGiven T.Holds first self.new.sink (entries_in self.new ++ e ∷ [])
            (seen ++ e ∷ [])) }
    {
        if self.is_of(id) {
            return Ok(());
        }
        self.end_message(alloc)?;
        self.id = Some(id.copy(alloc)?);
        Ok(())
    }

    /// Whether this is the message that is read.
    fn is_of(&self, id: &MessageId) -> bool
        ensures { result ≡ is_of self.now.id id.now }
    {
        match &self.id {
            Some(own) => own == id,
            None => false,
        }
    }
}

/// Gives the cells of a message on where another one begins.
impl<'t, T: MessageSink<'t>> CellSink<'t> for ByMessage<'t, T> {
    ghost Holds = { λ first by seen. HasSeen T.Holds first.sink by seen };

    fn begin(&self, alloc: Global) -> Result<Self, AllocError> {
        let sink = self.sink.begin(alloc)?;
        Ok(ByMessage::new(alloc, sink))
    }

    fn see(&mut self, alloc: Global, cell: CellRef<'_, 't>) -> Result<(), AllocError> {
        let CellRef {
            id,
            lang,
            stamp,
            label,
            ..
        } = cell;
        self.reach(alloc, id)?;
        let lang = lang.copy(alloc)?;
        self.cells.push(MessageCell { lang, stamp, label })?;
        Ok(())
    }
}
