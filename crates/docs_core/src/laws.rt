//! Laws over the definitions alone, each the contract of a function that does nothing.
ghost use Rattle.std.specs.Prelude.{◌≡◌, ◌≤◌, ◌⊎◌, ◌↔◌, ◌∷◌, ◌++◌, ℕ, Bool, Contains, List, []};
ghost use Rattle.std.specs.Prelude.{IsTrue, None, Option, Some, false, map};
ghost use Rattle.std.specs.FinMap.Entries.{find};
ghost use Rattle.cell_core.specs.Join.{IsJoinOf};
ghost use Rattle.cell_core.specs.Keyed.{IsMap};
ghost use Rattle.cell_core.specs.declared.cell.Cell.{Cell};
ghost use Rattle.list_core.specs.Item.{Item};
ghost use Rattle.nego_core.specs.declared.widening.Widening.{Widening};
ghost use Rattle.cata_core.specs.Delta.{HasAll, Stamps, delta_of};
ghost use Rattle.cell_core.specs.Entry.{EntryKey, key_cmp};
ghost use Rattle.catalogue.specs.Entries.{Agree, Entries, Entry, joined};
ghost use Rattle.catalogue.specs.CatalogueParts.{part_of};
ghost use Rattle.cata_core.specs.OwnEdits.{IsLackedEdit};
ghost use Rattle.cata_core.specs.Site.{SiteState};
ghost use Rattle.cata_core.specs.Summary.{SummaryState};
ghost use Rattle.cata_core.specs.declared.delta.Delta.{Delta};
ghost use Rattle.json_docs.specs.declared.fault.DocCause.{DocCause};
ghost use Rattle.json_docs.specs.declared.fault.DocCause.TheVariants.{OwnEditMissing};
ghost use Rattle.json_docs.specs.declared.fault.DocFault.{DocFault};
ghost use Rattle.row_docs.specs.Entries.{cells_values};
ghost use Rattle.row_docs.specs.Reading.{IsOfDocument};
ghost use Rattle.site_docs.specs.Documents.{site_text};
ghost use Rattle.site_docs.specs.Reading.{IsSiteText, ReadsAsDelta, ReadsAsSite, ReadsAsSummary};
ghost use Rattle.site_docs.specs.Reading.{RefusesDelta, RefusesSite, RefusesSummary};
ghost use Rattle.row_docs.specs.WritingTexts.{text};
ghost use Rattle.site_docs.specs.DocumentsValues.{site_value};
ghost use Rattle.map_docs.specs.MapsLabels.{AreLangMaps, RefusesLangMaps};
ghost use Rattle.map_docs.specs.Maps.{Labelled};
ghost use Rattle.script_docs.specs.Reading.{ReadsAsScript, RefusesScript};
ghost use Rattle.script_docs.specs.Scripts.{ScriptState};
ghost use Rattle.query_docs.specs.Bundling.{IsBundleBy};
ghost use Rattle.query_docs.specs.Changes.{IsChanged, RefusesChanged};
ghost use Rattle.query_docs.specs.Exporting.{label_at, live_labels};
ghost use Rattle.query_docs.specs.Missing.{missing_labels};
ghost use Rattle.query_docs.specs.Outdated.{IsOutdatedMessage, outdated_labels};
ghost use Rattle.docs_core.specs.Calls.{AreSynced, IsDeltaFor, IsEdited, IsSummarised, IsTaken};
ghost use Rattle.docs_core.specs.Calls.{RefusesDeltaFor, RefusesEditing, RefusesSync};
ghost use Rattle.docs_core.specs.Calls.{RefusesTaking};
ghost use Rattle.site_docs.specs.Checks.{LackNoOwn, LacksNoOwn, ReadsInTime, no_checks, until};
ghost use Rattle.site_docs.specs.declared.checks.Checks.{Checks};
ghost use Rattle.site_docs.specs.declared.checks.OwnEdits.{OwnEdits};
ghost use Rattle.site_docs.specs.declared.checks.OwnEdits.TheVariants.{Checked};
ghost use Rattle.summary_docs.specs.Shown.{DigestsTell};
ghost use Rattle.summary_docs.specs.declared.summaries.Shows.{Shows};
ghost use Rattle.summary_docs.specs.declared.summaries.Shows.TheVariants.{Labels};
ghost use Rattle.docs_core.specs.Importing.{IsImported, RefusesImport};
ghost use Rattle.docs_core.specs.ImportingLabels.{Imports};
ghost use Rattle.docs_core.specs.Lines.{documents_of};
ghost use Rattle.docs_core.specs.UpdatingChanges.{Change};
ghost use Rattle.docs_core.specs.Merging.{AllAgree, IsMerged, ReadAsSites, RefusesMerge};
ghost use Rattle.docs_core.specs.Merging.{RefusesOther, part_of_site};
ghost use Rattle.docs_core.specs.Replaying.{RefusesReplay, Replays};
ghost use Rattle.site_docs.specs.RowsInTime.{AreInTime};
ghost use Rattle.docs_core.specs.Updating.{AreChanges, IsUpdated, RefusesUpdate, Updates};

pub use query_docs::laws::{
    a_label_count_is_of_messages, a_listed_language_has_a_label, label_counts_add_up_to_the_labels,
    label_counts_of_parts_add_up, one_list_of_label_counts,
};
pub use row_docs::laws::a_written_text_is_one_line;
pub use script_docs::laws::{a_written_field_is_the_shortest, one_script};
pub use site_docs::laws::{
    one_delta, one_site, one_summary, written_delta_reads, written_site_reads,
    written_summary_reads,
};
pub use summary_docs::laws::{
    a_checked_delta_acts_as_a_merge, a_shown_delta_suffices, digests_add_only_what_does_not_agree,
    one_shown_summary, without_digests_stamps_make_the_delta,
};

/// A text is replayed as one text at most.
pub fn one_replay()
    ensures { (bytes x y : List ℕ) → Replays bytes x → Replays bytes y → x ≡ y }
{}

/// No text is both read and refused.
pub fn a_read_text_is_not_refused()
    ensures site { (bytes : List ℕ) (site : SiteState) (cause : DocCause)
        → ReadsAsSite bytes site → ¬ RefusesSite bytes cause }
    ensures delta { (bytes : List ℕ) (delta : Delta) (cause : DocCause)
        → ReadsAsDelta bytes delta → ¬ RefusesDelta bytes cause }
    ensures summary { (bytes : List ℕ) (summary : SummaryState) (cause : DocCause)
        → ReadsAsSummary bytes summary → ¬ RefusesSummary bytes cause }
    ensures script { (bytes : List ℕ) (script : ScriptState) (cause : DocCause)
        → ReadsAsScript bytes script → ¬ RefusesScript bytes cause }
    ensures labels { (bytes : List ℕ) (labels : List Labelled) (cause : DocCause)
        → AreLangMaps bytes labels → ¬ RefusesLangMaps bytes cause }
{}

/// A text that is refused is refused for one cause, where out of memory is none of them.
pub fn one_refusal()
    ensures site { (bytes : List ℕ) (a b : DocCause) → RefusesSite bytes a → RefusesSite bytes b
        → a ≡ b }
    ensures delta { (bytes : List ℕ) (a b : DocCause) → RefusesDelta bytes a
        → RefusesDelta bytes b → a ≡ b }
    ensures summary { (bytes : List ℕ) (a b : DocCause) → RefusesSummary bytes a
        → RefusesSummary bytes b → a ≡ b }
    ensures script { (bytes : List ℕ) (a b : DocCause) → RefusesScript bytes a
        → RefusesScript bytes b → a ≡ b }
    ensures labels { (bytes : List ℕ) (a b : DocCause) → RefusesLangMaps bytes a
        → RefusesLangMaps bytes b → a ≡ b }
{}

// ---- calls

/// No documents are both answered and refused by a call, where out of memory is no refusal.
pub fn what_is_answered_is_not_refused()
    ensures edit { (bytes : List ℕ) (now : ℕ) (key : EntryKey) (label : Option (List (List ℕ)))
        (text : List ℕ) (fault : DocFault)
        → IsEdited bytes now key label text → ¬ RefusesEditing bytes now fault }
    ensures sync { (checks : Checks) (a b x y : List ℕ) (fault : DocFault)
        → AreSynced checks a b x y → ¬ RefusesSync checks a b fault }
    ensures take { (checks : Checks) (a b text : List ℕ) (fault : DocFault)
        → IsTaken checks a b text → ¬ RefusesTaking checks a b fault }
    ensures merge { (checks : Checks) (input text : List ℕ) (fault : DocFault)
        → IsMerged checks input text → ¬ RefusesMerge checks input fault }
    ensures delta { (a b text : List ℕ) (fault : DocFault)
        → IsDeltaFor a b text → ¬ RefusesDeltaFor a b fault }
    ensures changes { (a b text : List ℕ) (found : Bool) (fault : DocFault)
        → IsChanged a b text found → ¬ RefusesChanged a b fault }
    ensures import { (bytes : List ℕ) (now : ℕ) (maps text : List ℕ) (fault : DocFault)
        → IsImported bytes now maps text → ¬ RefusesImport bytes now maps fault }
    ensures update { (bytes : List ℕ) (now : ℕ) (old new text : List ℕ) (fault : DocFault)
        → IsUpdated bytes now old new text → ¬ RefusesUpdate bytes now old new fault }
    ensures replay { (bytes text : List ℕ) (fault : DocFault)
        → Replays bytes text → ¬ RefusesReplay bytes fault }
    // Those that read one site answer where it is read.
    ensures site { (bytes : List ℕ) (site : SiteState) (fault : DocFault)
        → ReadsAsSite bytes site → ¬ IsOfDocument 1 (RefusesSite bytes) fault }
{}

/// A call refuses its documents by one fault: with one number, place, row and document.
pub fn one_refusal_of_a_call()
    ensures edit { (bytes : List ℕ) (now : ℕ) (x y : DocFault) → RefusesEditing bytes now x
        → RefusesEditing bytes now y → x ≡ y }
    ensures sync { (checks : Checks) (a b : List ℕ) (x y : DocFault)
        → RefusesSync checks a b x → RefusesSync checks a b y → x ≡ y }
    ensures take { (checks : Checks) (a b : List ℕ) (x y : DocFault)
        → RefusesTaking checks a b x → RefusesTaking checks a b y → x ≡ y }
    ensures merge { (checks : Checks) (input : List ℕ) (x y : DocFault)
        → RefusesMerge checks input x → RefusesMerge checks input y → x ≡ y }
    ensures delta { (a b : List ℕ) (x y : DocFault) → RefusesDeltaFor a b x
        → RefusesDeltaFor a b y → x ≡ y }
    ensures changes { (a b : List ℕ) (x y : DocFault) → RefusesChanged a b x
        → RefusesChanged a b y → x ≡ y }
    ensures import { (bytes : List ℕ) (now : ℕ) (maps : List ℕ) (x y : DocFault)
        → RefusesImport bytes now maps x → RefusesImport bytes now maps y → x ≡ y }
    ensures update { (bytes : List ℕ) (now : ℕ) (old new : List ℕ) (x y : DocFault)
        → RefusesUpdate bytes now old new x → RefusesUpdate bytes now old new y → x ≡ y }
    ensures replay { (bytes : List ℕ) (x y : DocFault) → RefusesReplay bytes x
        → RefusesReplay bytes y → x ≡ y }
    ensures site { (bytes : List ℕ) (x y : DocFault) → IsOfDocument 1 (RefusesSite bytes) x
        → IsOfDocument 1 (RefusesSite bytes) y → x ≡ y }
{}

/// A delta suffices: made against a summary that the site has in full, by a sender that agrees with
/// it, it leaves the document of the site with all cells of the sender.
pub fn a_delta_document_suffices()
    ensures { (checks : Checks) (a b text : List ℕ) (site : SiteState) (sender : Entries)
        (told : Stamps)
        → ReadsAsSite a site → ReadsAsDelta b
        (record { addressee = site.name; cells = delta_of sender told })
        → Agree site.cells sender → HasAll site.cells told → IsTaken checks a b text
        → IsSiteText (record { name = site.name; cells = joined site.cells sender }) text }
{}

/// An exchange by documents is a join: a site that takes the delta which another made for its
/// summary, with labels or without, has the document of the cells of both.
pub fn an_exchange_is_a_join()
    ensures { (shows : Shows) (checks : Checks) (a b told delta taken : List ℕ)
        (site other : SiteState)
        → ReadsAsSite a site → ReadsAsSite b other → Agree site.cells other.cells
        → IsSummarised shows a told → IsDeltaFor b told delta → IsTaken checks a delta taken
        → IsSiteText (record { name = site.name; cells = joined site.cells other.cells }) taken }
{}

/// An exchange by a summary that shows labels notices what a sync does, whatever happened before.
/// If no two labels of one key and stamp have one digest, and no checks are asked for, taking the
/// delta is refused exactly as the sync of both documents is.
pub fn a_checked_exchange_is_refused_as_a_sync_is()
    ensures { (a b told delta : List ℕ) (site other : SiteState) (fault : DocFault)
        → ReadsAsSite a site → ReadsAsSite b other → DigestsTell site.cells other.cells
        → IsSummarised Labels a told → IsDeltaFor b told delta
        → RefusesTaking no_checks a delta fault ↔ RefusesSync no_checks a b fault }
{}

/// Synced documents have equal `cells`: those of both sites.
pub fn synced_documents_have_equal_cells()
    ensures { (checks : Checks) (a b x y : List ℕ) (first second : SiteState)
        → ReadsAsSite a first → ReadsAsSite b second → AreSynced checks a b x y
        → let cells = cells_values (joined first.cells second.cells) in
        (x ≡ text (site_value first.name cells)) × (y ≡ text (site_value second.name cells)) }
{}

/// A line feed after a text changes nothing in what it reads as.
pub fn a_last_line_feed_is_free()
    ensures site { (bytes : List ℕ) (site : SiteState) → ReadsAsSite (bytes ++ 10 ∷ []) site
        ↔ ReadsAsSite bytes site }
    ensures delta { (bytes : List ℕ) (delta : Delta) → ReadsAsDelta (bytes ++ 10 ∷ []) delta
        ↔ ReadsAsDelta bytes delta }
    ensures summary { (bytes : List ℕ) (summary : SummaryState)
        → ReadsAsSummary (bytes ++ 10 ∷ []) summary ↔ ReadsAsSummary bytes summary }
    ensures script { (bytes : List ℕ) (script : ScriptState)
        → ReadsAsScript (bytes ++ 10 ∷ []) script ↔ ReadsAsScript bytes script }
    ensures labels { (bytes : List ℕ) (labels : List Labelled)
        → AreLangMaps (bytes ++ 10 ∷ []) labels ↔ AreLangMaps bytes labels }
{}

// ---- merges

/// What many sites are merged to is the join of all: above each of them, and below all that is
/// above each.
pub fn a_merge_is_the_join_of_all()
    ensures { (checks : Checks) (input text : List ℕ) (sites : List SiteState) (after : SiteState)
        → ReadAsSites (documents_of input) sites → IsMerged checks input text
        → ReadsAsSite text after
        → IsJoinOf Agree joined (map (λ (site : SiteState). site.cells) sites) after.cells }
{}

/// Where all agree, the documents after the first may come in any order, and each of them again;
/// without a limit the first may come again too. (Where own edits are looked for, a document that
/// brings one may come after another that has a later edit of its key, and not before it.)
pub fn the_order_of_a_merge_is_free()
    ensures others { (a b text : List ℕ) (limit : Option ℕ) (first : List ℕ)
        (rest more : List (List ℕ))
        → documents_of a ≡ first ∷ rest → documents_of b ≡ first ∷ more
        → ((d : List ℕ) → Contains rest d ↔ Contains more d) → AllAgree (first ∷ rest)
        → IsMerged (until limit) a text → IsMerged (until limit) b text }
    ensures first { (a b text : List ℕ) (first : List ℕ) (rest more : List (List ℕ))
        → documents_of a ≡ first ∷ rest → documents_of b ≡ first ∷ more
        → ((d : List ℕ) → Contains (first ∷ rest) d ↔ Contains (first ∷ more) d)
        → AllAgree (first ∷ rest) → IsMerged no_checks a text → IsMerged no_checks b text }
{}

/// A merge of two sites gives what a sync of them prints first, and is refused as that is, where
/// nothing is tested.
pub fn a_merge_of_two_is_a_sync()
    ensures synced { (checks : Checks) (input a b x y : List ℕ)
        → documents_of input ≡ a ∷ b ∷ [] → AreSynced checks a b x y
        → IsMerged checks input x }
    ensures refused { (input a b : List ℕ) (fault : DocFault) → documents_of input ≡ a ∷ b ∷ []
        → RefusesMerge no_checks input fault ↔ RefusesSync no_checks a b fault }
{}

/// The merge of parts is the part of the merge.
pub fn a_merge_of_parts_is_the_part_of_the_merge()
    ensures { (messages : List ℕ → Bool) (whole parts text doc : List ℕ) (limit : Option ℕ)
        (sites : List SiteState) (after : SiteState)
        → ReadAsSites (documents_of whole) sites
        → ReadAsSites (documents_of parts) (map (part_of_site messages) sites)
        → IsMerged (until limit) whole text → ReadsAsSite text after
        → IsSiteText (part_of_site messages after) doc → IsMerged (until limit) parts doc }
{}

// ---- checks of what comes in

/// What is taken under checks is what is taken without them, of documents that pass: no time is
/// after the limit, and, if that is tested, no row is an edit that its taker made and lacks.
pub fn checks_take_the_same()
    ensures taken { (checks : Checks) (a b text : List ℕ) → IsTaken checks a b text
        ↔ (IsTaken no_checks a b text × ((site : SiteState) (delta : Delta)
        → ReadsAsSite a site → ReadsAsDelta b delta → AreInTime checks.not_after delta.cells
        × LacksNoOwn checks.own_edits site delta.cells)) }
    ensures synced { (checks : Checks) (a b x y : List ℕ) → AreSynced checks a b x y
        ↔ (AreSynced no_checks a b x y × ((first second : SiteState)
        → ReadsAsSite a first → ReadsAsSite b second → AreInTime checks.not_after first.cells
        × AreInTime checks.not_after second.cells × LackNoOwn checks.own_edits first second)) }
    ensures merged { (checks : Checks) (input text : List ℕ) → IsMerged checks input text
        → IsMerged no_checks input text }
{}

/// No cell that comes in under a limit has a time after it. After a take each other cell was there
/// before, and after a merge each other cell was in the first site. After a sync no cell has a
/// later time.
pub fn what_comes_in_is_in_the_limit()
    ensures taken { (own : OwnEdits) (a b text : List ℕ) (limit : ℕ) (site after : SiteState)
        (key : EntryKey) (cell : Cell) → ReadsAsSite a site → ReadsAsSite text after
        → IsTaken (record { not_after = Some limit; own_edits = own }) a b text
        → find key_cmp key after.cells ≡ Some cell
        → (find key_cmp key site.cells ≡ Some cell) ⊎ (cell.stamp.time ≤ limit) }
    ensures synced { (own : OwnEdits) (a b x y : List ℕ) (limit : ℕ) (after : SiteState)
        (key : EntryKey) (cell : Cell) → ReadsAsSite x after ⊎ ReadsAsSite y after
        → AreSynced (record { not_after = Some limit; own_edits = own }) a b x y
        → find key_cmp key after.cells ≡ Some cell
        → cell.stamp.time ≤ limit }
    ensures merged { (own : OwnEdits) (input a text : List ℕ) (rest : List (List ℕ)) (limit : ℕ)
        (first after : SiteState) (key : EntryKey) (cell : Cell) → documents_of input ≡ a ∷ rest
        → ReadsAsSite a first → ReadsAsSite text after
        → IsMerged (record { not_after = Some limit; own_edits = own }) input text
        → find key_cmp key after.cells ≡ Some cell
        → (find key_cmp key first.cells ≡ Some cell) ⊎ (cell.stamp.time ≤ limit) }
{}

/// An edit that its site made and lacks is never passed over in silence. Where own edits are looked
/// for, an exchange that would bring one is refused by 30, of the document that has it: a delta for
/// the site, either of two sites, or the next site of a merge.
pub fn a_missing_own_edit_is_refused()
    ensures taken { (limit : Option ℕ) (a b : List ℕ) (site : SiteState) (delta : Delta)
        (edit : Entry) → ReadsAsSite a site → ReadsInTime limit b delta
        → site.name ≡ delta.addressee → Contains delta.cells edit
        → IsLackedEdit site.name site.cells edit
        → (row : ℕ) × RefusesTaking (record { not_after = limit; own_edits = Checked }) a b
        (record { document = 2; cause = OwnEditMissing row }) }
    ensures synced { (limit : Option ℕ) (a b : List ℕ) (first second : SiteState) (edit : Entry)
        → ReadsAsSite a first → ReadsAsSite b second → AreInTime limit first.cells
        → AreInTime limit second.cells
        → (Contains first.cells edit × IsLackedEdit second.name second.cells edit)
        ⊎ (Contains second.cells edit × IsLackedEdit first.name first.cells edit)
        → (document row : ℕ) × RefusesSync (record { not_after = limit; own_edits = Checked }) a b
        (record { document = document; cause = OwnEditMissing row }) }
    ensures merged { (limit : Option ℕ) (number : ℕ) (site other : SiteState) (b : List ℕ)
        (edit : Entry) → ReadsAsSite b other → AreInTime limit other.cells
        → Contains other.cells edit → IsLackedEdit site.name site.cells edit
        → (row : ℕ) × RefusesOther (record { not_after = limit; own_edits = Checked }) number site b
        (record { document = number; cause = OwnEditMissing row }) }
{}

// ---- imports

/// After an import the live labels of its keys are its labels, and each other key has the cell that
/// it had.
pub fn an_import_puts_its_labels_alone()
    ensures labels { (now : ℕ) (name : List ℕ) (labels : List Labelled) (cells imported : Entries)
        → IsMap key_cmp labels → Imports now name labels cells imported
        → (key : EntryKey) (label : List (List ℕ)) → find key_cmp key labels ≡ Some label
        → label_at key imported ≡ Some label }
    ensures others { (now : ℕ) (name : List ℕ) (labels : List Labelled) (cells imported : Entries)
        → IsMap key_cmp labels → Imports now name labels cells imported
        → (key : EntryKey) → find key_cmp key labels ≡ None
        → find key_cmp key imported ≡ find key_cmp key cells }
{}

/// What is exported, and imported into an empty site, has the same live labels.
pub fn an_import_of_an_export_has_its_labels()
    ensures { (now : ℕ) (name : List ℕ) (cells imported : Entries) → IsMap key_cmp cells
        → Imports now name (live_labels cells) [] imported
        → live_labels imported ≡ live_labels cells }
{}

// ---- updates

/// From old labels to new ones there is one list of changes.
pub fn one_list_of_changes()
    ensures there { (old new : List Labelled) (cells : Entries) → (changes : List Change)
        × AreChanges old new cells changes }
    ensures one { (old new : List Labelled) (cells : Entries) (x y : List Change)
        → AreChanges old new cells x → AreChanges old new cells y → x ≡ y }
{}

/// Where the old and the new labels are equal an update changes nothing, whatever the site has.
pub fn equal_labels_change_nothing()
    ensures cells { (now : ℕ) (name : List ℕ) (labels : List Labelled) (cells updated : Entries)
        → Updates now name labels labels cells updated → updated ≡ cells }
    ensures document { (bytes old new doc : List ℕ) (now : ℕ) (site : SiteState)
        (labels : List Labelled)
        → ReadsAsSite bytes site → AreLangMaps old labels → AreLangMaps new labels
        → IsUpdated bytes now old new doc → doc ≡ site_text site }
{}

/// A key on which the old and the new labels agree keeps its cell.
pub fn an_update_keeps_what_is_equal()
    ensures { (now : ℕ) (name : List ℕ) (old new : List Labelled) (cells updated : Entries)
        (key : EntryKey)
        → Updates now name old new cells updated → find key_cmp key old ≡ find key_cmp key new
        → find key_cmp key updated ≡ find key_cmp key cells }
{}

/// On a site whose live labels are the old ones the live labels become the new ones.
pub fn an_update_of_the_live_labels_brings_the_new_ones()
    ensures { (now : ℕ) (name : List ℕ) (new : List Labelled) (cells updated : Entries)
        → IsMap key_cmp cells → IsMap key_cmp new
        → Updates now name (live_labels cells) new cells updated → live_labels updated ≡ new }
{}

/// An update that is made twice, at whatever times, is made once.
pub fn an_update_twice_is_one()
    ensures cells { (now later : ℕ) (name : List ℕ) (old new : List Labelled)
        (cells once twice : Entries)
        → Updates now name old new cells once → Updates later name old new once twice
        → twice ≡ once }
    ensures document { (bytes old new once twice : List ℕ) (now later : ℕ)
        → IsUpdated bytes now old new once → IsUpdated once later old new twice → twice ≡ once }
{}

// ---- bundles

/// Each label of a bundle is one of the live labels, as an export has them.
pub fn a_bundle_is_of_the_live_labels()
    ensures { (widening : Widening) (cells : Entries) (items : List Item)
        (default : Option (List ℕ)) (labels : List Labelled) (e : Labelled)
        → IsBundleBy widening cells items default labels → Contains labels e
        → Contains (live_labels cells) e }
{}

/// A site has one bundle for a list, a widening and a default.
pub fn one_bundle()
    ensures { (widening : Widening) (cells : Entries) (items : List Item)
        (default : Option (List ℕ)) (a b : List Labelled)
        → IsBundleBy widening cells items default a → IsBundleBy widening cells items default b
        → a ≡ b }
{}

// ---- outdated labels

/// A live label is among the outdated ones exactly where its message has live labels in both
/// languages and the time of the source's is greater.
pub fn a_message_is_outdated_where_its_source_is_later()
    ensures { (lang source : List ℕ) (cells : Entries) (e : Labelled)
        → Contains (outdated_labels lang source cells) e
        ↔ (Contains (live_labels cells) e × IsOutdatedMessage lang source cells e.0.0) }
{}

/// No label is older than itself.
pub fn nothing_is_outdated_by_itself()
    ensures { (lang : List ℕ) (cells : Entries) → outdated_labels lang lang cells ≡ [] }
{}

// ---- changes

/// Nothing changed exactly where the cells of both sites are equal.
pub fn nothing_changed_where_cells_are_equal()
    ensures { (a b doc : List ℕ) (found : Bool) (before after : SiteState)
        → ReadsAsSite a before → ReadsAsSite b after → IsChanged a b doc found
        → (found ≡ false)
        ↔ ((key : EntryKey) → find key_cmp key before.cells ≡ find key_cmp key after.cells) }
{}

// ---- sites in parts, each with the cells of some of the messages

/// What is exported of a part, what it misses, what is outdated in it and its bundle are the part
/// of what the whole gives. Where each message is in some part, the whole gives nothing just where
/// no part gives anything.
pub fn a_part_gives_its_part()
    ensures export { (messages : List ℕ → Bool) (cells : Entries)
        → live_labels (part_of messages cells) ≡ part_of messages (live_labels cells) }
    ensures missing { (messages : List ℕ → Bool) (lang : List ℕ) (cells : Entries)
        → missing_labels lang (part_of messages cells)
        ≡ part_of messages (missing_labels lang cells) }
    ensures outdated { (messages : List ℕ → Bool) (lang source : List ℕ) (cells : Entries)
        → outdated_labels lang source (part_of messages cells)
        ≡ part_of messages (outdated_labels lang source cells) }
    ensures bundle { (messages : List ℕ → Bool) (widening : Widening) (cells : Entries)
        (items : List Item) (default : Option (List ℕ)) (labels : List Labelled)
        → IsBundleBy widening cells items default labels
        → IsBundleBy widening (part_of messages cells) items default (part_of messages labels) }
    ensures nothing { (parts : ℕ → List ℕ → Bool)
        → ((id : List ℕ) → (k : ℕ) × IsTrue (parts k id)) → (labels : List Labelled)
        → (labels ≡ []) ↔ ((k : ℕ) → part_of (parts k) labels ≡ []) }
{}
