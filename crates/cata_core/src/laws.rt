//! Laws over the definitions alone: each function's contract is one, for all values that it names.

ghost use Rattle.std.specs.Prelude.{◌≡◌, ◌≢◌, ◌↔◌, ◌⊎◌, ◌<◌, [], ◌∷◌, ◌++◌, ℕ, List, Bool};
ghost use Rattle.std.specs.Prelude.{Contains, Option, Some, None, length};
ghost use Rattle.std.specs.FinMap.Entries.{find, put};
ghost use Rattle.cell_core.specs.declared.cell.Cell.{Cell};
ghost use Rattle.std.specs.declared.cmp.Ordering.TheVariants.{Less};
ghost use Rattle.cell_core.specs.declared.stamp.Stamp.{Stamp};
ghost use Rattle.cell_core.specs.Stamp.{IsAbove, stamp_cmp};
ghost use Rattle.cell_core.specs.Keyed.{IsMap, joined_if_both};
ghost use Rattle.cell_core.specs.Cell.{joined_stamps};
ghost use Rattle.cell_core.specs.Entry.{EntryKey, text_cmp, key_cmp};
ghost use Rattle.catalogue.specs.Entries.{Entry, Entries, Agree};
ghost use Rattle.catalogue.specs.Entries.{Between, joined, IsBelowCells};
ghost use Rattle.catalogue.specs.CatalogueLatest.{latest_of, IsLatest};
ghost use Rattle.cata_core.specs.Delta.{Stamps, HasAll, IsPart, IsBelowStamps, summary_of};
ghost use Rattle.cata_core.specs.Delta.{delta_of};
ghost use Rattle.catalogue.specs.CatalogueParts.{part_of};
ghost use Rattle.cata_core.specs.declared.step.Step.{Step};
ghost use Rattle.cata_core.specs.declared.step.Step.TheVariants.{Edit, Tell, Post, Deliver};
ghost use Rattle.cata_core.specs.OwnEdits.{AreMadeAtHome, LacksNoEdit};
ghost use Rattle.cata_core.specs.RunsTaken.{taken, taken_after, nothing_taken, edits_in, edits_of};
ghost use Rattle.cata_core.specs.WorldHeld.{held, held_after, nothing_held, cells_in};
ghost use Rattle.list_core.specs.Item.{Item};
ghost use Rattle.nego_core.specs.declared.widening.Widening.{Widening};
ghost use Rattle.cata_core.specs.declared.answer.Answer.{Answer};
ghost use Rattle.catalogue.specs.declared.reply.Reply.{Reply};
ghost use Rattle.catalogue.specs.Live.{Labelled, live};
ghost use Rattle.catalogue.specs.LiveMessages.{LiveMessage, AreMessages};
ghost use Rattle.catalogue.specs.Asking.{IsLookedUpIn};
ghost use Rattle.catalogue.specs.Asking.{IsLookupAnswerBy};
ghost use Rattle.cata_core.specs.Answer.{cells_answer, AreHeldAnswers, AreAnswers};
ghost use Rattle.cata_core.specs.AnswerAlike.{AnswerAlike};
ghost use Rattle.cata_core.specs.PlayFault.{IsNoDeliver, NoDelivers, NoneFaulty, Clashes};
ghost use Rattle.cata_core.specs.PlayFault.{Unsettles};
ghost use Rattle.cata_core.specs.RunsSpreads.{AllReached};
ghost use Rattle.cata_core.specs.SiteMigration.{KeepsCatalogueJoins, IsOldMap, OldEntries};
ghost use Rattle.catalogue.specs.Edits.{IsConsistent, IsBest, IsSettled, SameMembers, catalogue_of};

pub use catalogue::laws::{
    a_join_has_each_key, a_part_answers_as_the_whole, a_part_has_its_keys,
    a_part_of_a_join_is_the_join_of_parts, a_part_of_changes, catalogue_has_best_edits,
    catalogue_of_both, catalogues_obey_the_join_laws, changes_are_what_differs, clashes_are_one,
    consistent_lists_are_settled, languages_serve_each_message, lists_tell_the_maps,
    one_filter_answer, one_list_of_messages, one_lookup_answer, one_lookup_answer_by,
    same_edits_same_catalogue,
};

/// An own edit, by `Site::put` or `Site::delete`, joins its one cell, since its stamp is greater
/// than all of the site. So what is said of joins and of the catalogue of edits is true of sites
/// that are edited and joined by hand.
pub fn an_own_edit_is_joined()
    ensures agree { (cells : Entries) (key : EntryKey) (cell : Cell) → IsMap key_cmp cells
        → IsAbove (latest_of cells) cell.stamp → Agree cells ((key, cell) ∷ []) }
    ensures join { (cells : Entries) (key : EntryKey) (cell : Cell) → IsMap key_cmp cells
        → IsAbove (latest_of cells) cell.stamp
        → put key_cmp key cell cells ≡ joined cells ((key, cell) ∷ []) }
    ensures above { (cells : Entries) (key : EntryKey) (cell : Cell) → IsMap key_cmp cells
        → IsAbove (latest_of cells) cell.stamp
        → IsBelowCells cells (put key_cmp key cell cells) }
    ensures taken { (edits : List Entry) (key : EntryKey) (cell : Cell) → IsSettled edits
        → IsAbove (latest_of (catalogue_of edits)) cell.stamp
        → IsSettled (edits ++ (key, cell) ∷ [])
        × (put key_cmp key cell (catalogue_of edits)
        ≡ catalogue_of (edits ++ (key, cell) ∷ [])) }
{}

/// A stamp is above the latest one of some cells exactly where it is above the stamp of each. So
/// the stamp of an own edit, by `Site::put` or `Site::delete`, is the least of its site that is not
/// before now and greater than those of all cells.
pub fn above_the_latest_is_above_each()
    ensures { (cells : Entries) (s : Stamp) → IsAbove (latest_of cells) s
        ↔ ((e : Entry) → Contains cells e → stamp_cmp e.1.stamp s ≡ Less) }
{}

/// The latest stamp of a site's cells is the latest that was ever taken in, and that of a join the
/// later of both.
pub fn the_latest_held_is_the_latest_taken()
    ensures edits { (edits : List Entry) → IsLatest edits (latest_of (catalogue_of edits)) }
    ensures join { (a b : Entries) → Agree a b
        → latest_of (joined a b) ≡ joined_if_both joined_stamps (latest_of a) (latest_of b) }
{}

/// Each part of a consistent list is consistent.
pub fn parts_are_consistent()
    ensures { (xs ys : List Entry) → IsConsistent xs → ((e : Entry) → Contains ys e → Contains xs e)
        → IsConsistent ys }
{}

/// A delta against a summary that its taker has in full joins to what the sender's whole catalogue
/// would.
pub fn delta_suffices()
    ensures { (own sender : Entries) (summary : Stamps) → Agree own sender → HasAll own summary
        → joined own (delta_of sender summary) ≡ joined own sender }
{}

/// A summary serves as long as its site's catalogue only grows: a site has all that it tells, and
/// has it still after any edit or join, and after a join that ran out of memory.
pub fn a_told_summary_serves()
    ensures now { (cells : Entries) → HasAll cells (summary_of cells) }
    ensures above { (old new : Entries) (summary : Stamps) → HasAll old summary
        → IsBelowCells old new → HasAll new summary }
    ensures later { (old new : Entries) → IsBelowCells old new → HasAll new (summary_of old) }
    ensures run { (p q : List Step) (site : ℕ)
        → HasAll (held (p ++ q) site) (summary_of (held p site)) }
{}

/// Whatever part of the sender joins as the whole sender would, it has each cell of the delta.
pub fn delta_is_least()
    ensures { (own sender part : Entries) → IsMap key_cmp own → Agree own sender
        → IsPart part sender → joined own part ≡ joined own sender
        → IsPart (delta_of sender (summary_of own)) part }
{}

/// A delta is empty exactly where the sender is below.
pub fn delta_is_empty()
    ensures { (own sender : Entries) → IsMap key_cmp own → Agree own sender
        → (delta_of sender (summary_of own) ≡ []) ↔ IsBelowCells sender own }
{}

/// Sites that took the same edits, in whichever runs of consistent edits, hold equal cells, and
/// answer each question alike. Of settled edits, consistent or not, their catalogues are equal, and
/// with them the answers to the question for all cells.
pub fn same_edits_equal_sites()
    ensures held { (p q : List Step) (s t : ℕ) → IsConsistent (edits_of p)
        → IsConsistent (edits_of q) → SameMembers (taken p s) (taken q t)
        → held p s ≡ held q t }
    ensures answers { (p q : List Step) (s t : ℕ) → IsConsistent (edits_of p)
        → IsConsistent (edits_of q) → SameMembers (taken p s) (taken q t)
        → AnswerAlike (held p) s (held q) t }
    ensures catalogues { (p q : List Step) (s t : ℕ) → IsSettled (taken p s)
        → SameMembers (taken p s) (taken q t)
        → (catalogue_of (taken p s) ≡ catalogue_of (taken q t))
        × (cells_answer (catalogue_of (taken p s)) ≡ cells_answer (catalogue_of (taken q t))) }
{}

/// A message that has live labels answers a lookup, widened or not, as its catalogue does; a lookup
/// over any other message answers nothing.
pub fn messages_answer_as_the_catalogue()
    ensures held { (cells : Entries) (messages : List LiveMessage) → AreMessages cells messages
        → (id : List ℕ) (labels : Labelled) → find text_cmp id messages ≡ Some labels
        → (widening : Widening) (items : List Item) (default : Option (List ℕ)) (reply : Reply)
        → IsLookedUpIn widening labels items default reply
        ↔ IsLookupAnswerBy widening cells id items default reply }
    ensures absent { (cells : Entries) (messages : List LiveMessage) → AreMessages cells messages
        → (id : List ℕ) → find text_cmp id messages ≡ None
        → (widening : Widening) (items : List Item) (default : Option (List ℕ)) (reply : Reply)
        → IsLookupAnswerBy widening cells id items default reply → reply ≡ Reply.Nothing }
{}

/// The steps of a run have one list of answers by what the sites hold, and one by what they took.
pub fn one_run()
    ensures held { (steps : List Step) (a b : List Answer) → AreHeldAnswers steps a
        → AreHeldAnswers steps b → a ≡ b }
    ensures expected { (steps : List Step) (a b : List Answer) → AreAnswers steps a
        → AreAnswers steps b → a ≡ b }
{}

/// After a sync that ran out of memory, the sites agree, and their join is what it was, so
/// that a repeat gives it.
pub fn a_sync_can_be_repeated()
    ensures { (first second mine theirs : Entries) → Agree first second → Between first mine second
        → Between second theirs first
        → (theirs ≡ second) ⊎ (mine ≡ joined first second)
        → Agree mine theirs × (joined mine theirs ≡ joined first second) }
{}

/// What a site took, it took for good.
pub fn taken_only_grows()
    ensures { (p q : List Step) (site : ℕ) (e : Entry) → Contains (taken p site) e
        → Contains (taken (p ++ q) site) e }
{}

/// What a site took is an edit of some step.
pub fn taken_holds_only_edits()
    ensures { (steps : List Step) (site : ℕ) (e : Entry) → Contains (taken steps site) e
        → (s : ℕ) × Contains steps (Edit s e) }
{}

/// What a site tells later is above what it tells now.
pub fn summaries_only_rise()
    ensures { (p q : List Step) (site : ℕ)
        → IsBelowStamps (summary_of (catalogue_of (taken p site)))
        (summary_of (catalogue_of (taken (p ++ q) site))) }
{}

/// With consistent edits a site has the catalogue of what it took, whatever was delivered, and
/// when. Without deliveries, where no step is faulty, it does so whether or not the edits are
/// consistent, and what it took is settled.
pub fn held_is_what_was_taken()
    ensures consistent { (steps : List Step) → IsConsistent (edits_of steps) → (site : ℕ)
        → held steps site ≡ catalogue_of (taken steps site) }
    ensures undelivered { (sites : ℕ) (steps : List Step) → NoDelivers steps
        → NoneFaulty sites steps
        → (site : ℕ)
        → IsSettled (taken steps site) × (held steps site ≡ catalogue_of (taken steps site)) }
{}

/// A delivery, however late, leaves what a merge with the sender would leave, as the sender was
/// when it posted: the taker has the join of both, and each other site what it had. It does so
/// whether or not edits clash.
pub fn a_delivery_acts_as_a_merge()
    ensures taker { (a b c : List Step) (s t : ℕ) → let v = held_after nothing_held a in
        let before = a ++ Tell t ∷ b in let w = held_after nothing_held before in
        let steps = before ++ Post s (length v.told) ∷ c in
        held (steps ++ Deliver (length w.posts) ∷ []) t ≡ joined (held steps t) (held before s) }
    ensures others { (a b c : List Step) (s t other : ℕ) → let v = held_after nothing_held a in
        let before = a ++ Tell t ∷ b in let w = held_after nothing_held before in
        let steps = before ++ Post s (length v.told) ∷ c in
        other ≢ t → held (steps ++ Deliver (length w.posts) ∷ []) other ≡ held steps other }
{}

/// Without deliveries, a step before which none is faulty clashes exactly where what its site took
/// is settled before it and not after it.
pub fn clashes_unsettle()
    ensures { (sites : ℕ) (steps : List Step) (step : Step) → NoDelivers steps → IsNoDeliver step
        → NoneFaulty sites steps
        → Clashes steps step ↔ Unsettles steps step }
{}

/// Where each site that edits reaches each other after its last edit, every site has the catalogue
/// of all edits.
pub fn delivered_sites_converge()
    ensures { (sites : ℕ) (steps : List Step) → IsConsistent (edits_of steps)
        → AllReached sites steps
        → (site : ℕ) → site < sites
        → catalogue_of (taken steps site) ≡ catalogue_of (edits_of steps) }
{}

/// A delivery brings the delta of what the sender had when it posted, against what the addressee
/// had when it told.
pub fn deliveries_bring_deltas()
    ensures { (a b c : List Step) (s t : ℕ) → let v = held_after nothing_held a in let w =
        held_after nothing_held (a ++ Tell t ∷ b) in
        cells_in (held_after nothing_held (a ++ Tell t ∷ b ++ Post s (length v.told) ∷ c))
        (Deliver (length w.posts))
        ≡ Some (t, delta_of (held (a ++ Tell t ∷ b) s) (summary_of (held a t))) }
{}

/// By a delivery the addressee takes what the sender had taken when it posted.
pub fn deliveries_bring_what_was_taken()
    ensures { (a b c : List Step) (s t : ℕ) → let v = taken_after nothing_taken a in let w =
        taken_after nothing_taken (a ++ Tell t ∷ b) in
        edits_in (taken_after nothing_taken (a ++ Tell t ∷ b ++ Post s (length v.tellers) ∷ c))
        (Deliver (length w.posts))
        ≡ Some (t, taken (a ++ Tell t ∷ b) s) }
{}

/// Migration keeps the joins of catalogues: two agree after it exactly where they did before, and
/// then their join is the migrated join.
pub fn migration_keeps_joins()
    ensures { (a b : OldEntries) → IsOldMap a → IsOldMap b
        → KeepsCatalogueJoins a b }
{}

/// The part of a delta is the delta of the part against the summary's part, and the summary of a
/// part is the part of the summary.
pub fn a_part_of_a_delta_is_the_delta_of_parts()
    ensures delta { (messages : List ℕ → Bool) (cells : Entries) (summary : Stamps)
        → part_of messages (delta_of cells summary)
        ≡ delta_of (part_of messages cells) (part_of messages summary) }
    ensures summary { (messages : List ℕ → Bool) (cells : Entries)
        → part_of messages (summary_of cells) ≡ summary_of (part_of messages cells) }
{}

/// A site never lacks an edit of its own. In a consistent run in which each edit is made at the
/// site that its stamp names, no site has an edit which its author lacks, nor does a delta bring
/// one, whenever it was posted.
pub fn a_site_lacks_no_edit_of_its_own()
    ensures sites { (names : ℕ → List ℕ) (steps : List Step) (a b : ℕ)
        → IsConsistent (edits_of steps) → AreMadeAtHome names steps
        → LacksNoEdit (names a) (held steps a) (held steps b) }
    ensures deltas { (names : ℕ → List ℕ) (earlier later : List Step) (a post : ℕ)
        (brought : ℕ × Entries) → let steps = earlier ++ later in
        IsConsistent (edits_of steps) → AreMadeAtHome names steps
        → cells_in (held_after nothing_held earlier) (Deliver post) ≡ Some brought
        → LacksNoEdit (names a) (held steps a) brought.1 }
{}

// ---- that premises are needed

/// Edits that are not settled may have the same members and different catalogues, and a best edit
/// that is in none.
pub fn settled_is_needed()
    ensures catalogues { (xs : List Entry) × (ys : List Entry) × SameMembers xs ys
        × (catalogue_of xs ≢ catalogue_of ys) }
    ensures best { (xs : List Entry) × (key : EntryKey) × (cell : Cell) × IsBest xs key cell
        × (find key_cmp key (catalogue_of xs) ≢ Some cell) }
{}

/// Edits may be settled and not consistent; and without consistency two sites that took the same
/// edits may hold different cells, although no step is faulty.
pub fn consistent_is_needed()
    ensures settled { (xs : List Entry) × IsSettled xs × ¬ (IsConsistent xs) }
    ensures held { (steps : List Step) × (s : ℕ) × (t : ℕ) × NoneFaulty 2 steps
        × SameMembers (taken steps s) (taken steps t) × (held steps s ≢ held steps t) }
{}

/// A delta against a summary that its taker no longer has in full may lack cells.
pub fn what_was_told_must_be_held()
    ensures { (own : Entries) × (sender : Entries) × (summary : Stamps) × Agree own sender
        × (joined own (delta_of sender summary) ≢ joined own sender) }
{}
