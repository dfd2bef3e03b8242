//! What takes the labels of a document one after another, as they are read.
ghost use Rattle.std.specs.Prelude.{◌≡◌, ◌++◌, ◌∷◌, [], List, IfSome};
ghost use Rattle.catalogue.specs.Entries.{IsAboveAll};
ghost use Rattle.map_docs.specs.Maps.{Labelled};

use crate::maps::LangMaps;
use cell_core::{Key, Label, MessageId};
use lang_core::Lang;
use std::alloc::Global;

/// Takes the labels of a document one after another, in ascending order of key.
pub trait TakeLabels {
    /// The second value is what the first becomes by these labels.
    ghost Holds: { Self → Self → List Labelled → Type 0 };

    /// Takes one label more, whose key is greater than all before it; none where it can't.
    fn take(&mut self, alloc: Global, id: &MessageId, lang: Lang, label: Label) -> Option<()>
        requires { (first : Self) × (before : List Labelled) × Holds first self.old before
            × IsAboveAll (id.now, lang) before }
        ensures { IfSome result (λ _. (first : Self) → (before : List Labelled)
            → Holds first self.old before → IsAboveAll (id.now, lang) before
            → Holds first self.new (before ++ ((id.now, lang), label) ∷ [])) };
}

/// Keeps all labels.
impl TakeLabels for LangMaps {
    ghost Holds = { λ first maps taken. maps ≡ taken };

    fn take(&mut self, alloc: Global, id: &MessageId, lang: Lang, label: Label) -> Option<()> {
        let Ok(id) = id.copy(alloc) else {
            return None;
        };
        match self.push(id, lang, label) {
            Ok(()) => Some(()),
            Err(_) => None,
        }
    }
}
