//! Laws over the definitions alone, each the contract of a function that does nothing.
ghost use Rattle.std.specs.Prelude.{◌≡◌, ◌+◌, ◌↔◌, ◌⊎◌, ℕ, Bool, IsSome, List, None, count_by, not};
ghost use Rattle.std.specs.Prelude.{sum_by};
ghost use Rattle.std.specs.FinMap.Entries.{find};
ghost use Rattle.cell_core.specs.Keyed.{IsMap};
ghost use Rattle.cell_core.specs.Entry.{EntryKey, key_cmp, text_cmp};
ghost use Rattle.catalogue.specs.Entries.{Entries, joined};
ghost use Rattle.catalogue.specs.CatalogueParts.{part_of};
ghost use Rattle.catalogue.specs.Live.{is_live};
ghost use Rattle.catalogue.specs.LiveMessages.{AreMessages, LiveMessage};
ghost use Rattle.query_docs.specs.Exporting.{label_at};
ghost use Rattle.query_docs.specs.Labels.{AreLabelCounts, LabelCounts, count_of};
ghost use Rattle.query_docs.specs.Status.{is_labelled};

/// A catalogue has one list of languages with their counts.
pub fn one_list_of_label_counts()
    ensures { (cells : Entries) (a b : LabelCounts) → AreLabelCounts cells a
        → AreLabelCounts cells b → a ≡ b }
{}

/// The counts add up to the labels of a status line: to the cells that have a label.
pub fn label_counts_add_up_to_the_labels()
    ensures { (cells : Entries) (counts : LabelCounts) → AreLabelCounts cells counts
        → sum_by (λ e. e.1) counts ≡ count_by is_labelled cells }
{}

/// A language is listed exactly if some message has a live label of it.
pub fn a_listed_language_has_a_label()
    ensures { (cells : Entries) (counts : LabelCounts) (lang : List ℕ) → IsMap key_cmp cells
        → AreLabelCounts cells counts → IsSome (find text_cmp lang counts)
        ↔ ((id : List ℕ) × IsSome (label_at (id, lang) cells)) }
{}

/// The count of a language is the number of messages that have a live label of it.
pub fn a_label_count_is_of_messages()
    ensures { (cells : Entries) (counts : LabelCounts) (messages : List LiveMessage)
        (lang : List ℕ) → IsMap key_cmp cells → AreLabelCounts cells counts
        → AreMessages cells messages
        → count_of lang counts ≡ count_by (λ m. is_live m.1 lang) messages }
{}

/// The counts of parts add up to those of the whole. The parts are some of the messages and the
/// others, or two catalogues that have no key in common, whose join is the whole.
pub fn label_counts_of_parts_add_up()
    ensures messages { (messages : List ℕ → Bool) (cells : Entries)
        (whole part rest : LabelCounts)
        → AreLabelCounts cells whole → AreLabelCounts (part_of messages cells) part
        → AreLabelCounts (part_of (λ id. not (messages id)) cells) rest → (lang : List ℕ)
        → count_of lang whole ≡ count_of lang part + count_of lang rest }
    ensures catalogues { (a b : Entries) (whole first second : LabelCounts)
        → IsMap key_cmp a → IsMap key_cmp b
        → ((key : EntryKey) → (find key_cmp key a ≡ None) ⊎ (find key_cmp key b ≡ None))
        → AreLabelCounts (joined a b) whole → AreLabelCounts a first → AreLabelCounts b second
        → (lang : List ℕ) → count_of lang whole ≡ count_of lang first + count_of lang second }
{}
