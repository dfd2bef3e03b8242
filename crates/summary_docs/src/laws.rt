//! Laws over the definitions alone, each the contract of a function that does nothing.
ghost use Rattle.std.specs.Prelude.{◌≡◌, ◌↔◌, [], ℕ, List};
ghost use Rattle.cell_core.specs.Keyed.{IsMap};
ghost use Rattle.cell_core.specs.Entry.{key_cmp};
ghost use Rattle.catalogue.specs.CataFault.{IsRefusal};
ghost use Rattle.catalogue.specs.Entries.{Agree, Entries, joined};
ghost use Rattle.catalogue.specs.declared.cata_fault.CataFault.{CataFault};
ghost use Rattle.cata_core.specs.Delta.{HasAll, delta_of, summary_of};
ghost use Rattle.cata_core.specs.Summary.{SummaryState};
ghost use Rattle.site_docs.specs.Reading.{ReadsAsSummary};
ghost use Rattle.summary_docs.specs.Reading.{ReadsAsShown};
ghost use Rattle.summary_docs.specs.Shown.{DigestsTell, ShownState, delta_for, shown_of};

/// The delta for a summary that shows labels acts as the sender's whole catalogue does, whatever
/// the history of both. It joins to the same. If no two labels of one key and stamp have one
/// digest, it agrees if and only if the whole agrees, and a clash (13) is refused at the same cell
/// and for the same stamp.
pub fn a_checked_delta_acts_as_a_merge()
    ensures agree { (own sender : Entries) (owner : List ℕ) → IsMap key_cmp own
        → IsMap key_cmp sender → DigestsTell own sender
        → Agree own (delta_for sender (shown_of owner own)) ↔ Agree own sender }
    ensures join { (own sender : Entries) (owner : List ℕ) → IsMap key_cmp own
        → IsMap key_cmp sender
        → joined own (delta_for sender (shown_of owner own)) ≡ joined own sender }
    ensures refusal { (own sender : Entries) (owner : List ℕ) → IsMap key_cmp own
        → IsMap key_cmp sender → DigestsTell own sender → (fault : CataFault)
        → IsRefusal own (delta_for sender (shown_of owner own)) fault
        ↔ IsRefusal own sender fault }
{}

/// If a site has all that a summary shows, a delta for that summary, with digests or without, joins
/// with the site to what the sender's whole catalogue does.
pub fn a_shown_delta_suffices()
    ensures { (own sender : Entries) (shown : ShownState) → IsMap key_cmp own
        → IsMap key_cmp sender → HasAll own shown.summary.stamps
        → joined own (delta_for sender shown) ≡ joined own sender }
{}

/// Without digests a delta is that of the stamps alone.
pub fn without_digests_stamps_make_the_delta()
    ensures { (cells : Entries) (summary : SummaryState)
        → delta_for cells (record { summary = summary; digests = [] })
        ≡ delta_of cells summary.stamps }
{}

/// If cells agree, digests add nothing to a delta.
pub fn digests_add_only_what_does_not_agree()
    ensures { (own sender : Entries) (owner : List ℕ) → IsMap key_cmp own → Agree own sender
        → delta_for sender (shown_of owner own) ≡ delta_of sender (summary_of own) }
{}

/// A text reads as one summary at most, with labels or without. What reads as a summary without
/// labels reads as the same here.
pub fn one_shown_summary()
    ensures one { (bytes : List ℕ) (s t : ShownState) → ReadsAsShown bytes s
        → ReadsAsShown bytes t → s ≡ t }
    ensures plain { (bytes : List ℕ) (summary : SummaryState) → ReadsAsSummary bytes summary
        → ReadsAsShown bytes (record { summary = summary; digests = [] }) }
{}
