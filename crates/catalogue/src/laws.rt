//! Laws over the definitions alone: each function's contract is one, for all values that it names.

ghost use Rattle.std.specs.Prelude.{◌≡◌, ◌≢◌, ◌↔◌, [], ◌++◌, ℕ, List, Bool, IsTrue};
ghost use Rattle.std.specs.Prelude.{Contains, Option, Some, None, IsSome, if◌then◌else◌};
ghost use Rattle.std.specs.FinMap.Entries.{find};
ghost use Rattle.cell_core.specs.declared.cell.Cell.{Cell};
ghost use Rattle.cell_core.specs.Join.{JoinLaws};
ghost use Rattle.cell_core.specs.Keyed.{IsMap, IsJoinedWith};
ghost use Rattle.cell_core.specs.Cell.{joined_cells};
ghost use Rattle.cell_core.specs.Entry.{EntryKey, key_cmp};
ghost use Rattle.catalogue.specs.Entries.{Entry, Entries, Agree};
ghost use Rattle.catalogue.specs.Entries.{Between, joined};
ghost use Rattle.catalogue.specs.CatalogueFlat.{flat};
ghost use Rattle.catalogue.specs.CatalogueNested.{AgreeNested, IsCatalogue, Nested, joined_nested};
ghost use Rattle.catalogue.specs.Changes.{AreChanges, AreMade, Changed, exchanged};
ghost use Rattle.catalogue.specs.CatalogueParts.{part_of};
ghost use Rattle.list_core.specs.Item.{Item};
ghost use Rattle.list_core.specs.declared.scheme.Scheme.{Scheme};
ghost use Rattle.nego_core.specs.declared.widening.Widening.{Widening};
ghost use Rattle.nego_core.specs.declared.widening.Widening.TheVariants.{Off};
ghost use Rattle.catalogue.specs.declared.reply.Reply.{Reply};
ghost use Rattle.std.specs.Prelude.{All};
ghost use Rattle.catalogue.specs.declared.reply.Reply.TheVariants.{Default, Matched};
ghost use Rattle.nego_core.specs.Offer.{all_items, is_offered};
ghost use Rattle.catalogue.specs.EntriesOffered.{offered_cells};
ghost use Rattle.catalogue.specs.Live.{languages, live};
ghost use Rattle.catalogue.specs.Languages.{AreLanguages, LanguageMap, texts_in};
ghost use Rattle.nego_core.specs.Shortlist.{AreAmong};
ghost use Rattle.catalogue.specs.LiveMessages.{LiveMessage, AreMessages};
ghost use Rattle.catalogue.specs.Asking.{Weighed, IsFilterAnswer};
ghost use Rattle.catalogue.specs.Asking.{IsLookupAnswer, IsLookupAnswerBy};
ghost use Rattle.cell_core.specs.declared.stamp.Stamp.{Stamp};
ghost use Rattle.catalogue.specs.Clash.{IsFirstClash};
ghost use Rattle.catalogue.specs.Edits.{IsConsistent, IsBest, IsSettled, SameMembers, catalogue_of};

/// The laws of joins hold for catalogues, seen as lists of entries.
pub fn catalogues_obey_the_join_laws()
    ensures { JoinLaws Agree joined Between }
{}

/// A join is the one catalogue that has at each key of one alone that one's cell, and at each key
/// of both the two cells joined, and no other key.
pub fn a_join_has_each_key()
    ensures each { (a b : Entries) → IsMap key_cmp a → IsMap key_cmp b
        → IsJoinedWith key_cmp joined_cells a b (joined a b) }
    ensures one { (a b c : Entries) → IsMap key_cmp a → IsMap key_cmp b
        → IsJoinedWith key_cmp joined_cells a b c → c ≡ joined a b }
{}

/// A map of maps and its list of entries determine each other: one map has the list, and both
/// agree and join alike.
pub fn lists_tell_the_maps()
    ensures one { (a b : Nested) → IsCatalogue a → IsCatalogue b → flat a ≡ flat b → a ≡ b }
    ensures agree { (a b : Nested) → IsCatalogue a → IsCatalogue b → AgreeNested a b
        ↔ Agree (flat a) (flat b) }
    ensures join { (a b : Nested) → IsCatalogue a → IsCatalogue b
        → flat (joined_nested a b) ≡ joined (flat a) (flat b) }
{}

/// The catalogue of a settled list has exactly the best edit of each key that occurs.
pub fn catalogue_has_best_edits()
    ensures map { (xs : List Entry) → IsMap key_cmp (catalogue_of xs) }
    ensures best { (xs : List Entry) → IsSettled xs → (key : EntryKey) (cell : Cell)
        → (find key_cmp key (catalogue_of xs) ≡ Some cell) ↔ IsBest xs key cell }
    ensures all { (xs : List Entry) (e : Entry) → Contains xs e
        → IsSome (find key_cmp e.0 (catalogue_of xs)) }
{}

/// Lists with the same members are settled alike, and have the same catalogue.
pub fn same_edits_same_catalogue()
    ensures { (xs ys : List Entry) → IsSettled xs → SameMembers xs ys
        → IsSettled ys × (catalogue_of xs ≡ catalogue_of ys) }
{}

/// Of settled lists, one after the other is settled exactly where their catalogues agree, and then
/// its catalogue is the join of both.
pub fn catalogue_of_both()
    ensures { (xs ys : List Entry) → IsSettled xs → IsSettled ys
        → (IsSettled (xs ++ ys) ↔ Agree (catalogue_of xs) (catalogue_of ys))
        × (IsSettled (xs ++ ys)
        → catalogue_of (xs ++ ys) ≡ joined (catalogue_of xs) (catalogue_of ys)) }
{}

/// A consistent list is settled.
pub fn consistent_lists_are_settled()
    ensures { (xs : List Entry) → IsConsistent xs → IsSettled xs }
{}

/// Where catalogues clash they do not agree, and the place and the stamp of a clash are one.
pub fn clashes_are_one()
    ensures differ { (own other : Entries) (place : ℕ) (stamp : Stamp) → IsMap key_cmp own
        → IsFirstClash key_cmp own other place stamp → ¬ (Agree own other) }
    ensures one { (own other : Entries) (p q : ℕ) (s t : Stamp) → IsFirstClash key_cmp own other p s
        → IsFirstClash key_cmp own other q t → (p ≡ q) × (s ≡ t) }
{}

/// A question for a filtered list has one answer.
pub fn one_filter_answer()
    ensures { (cells : Entries) (id : List ℕ) (scheme : Scheme) (items : List Item) (a b : Weighed)
        → IsFilterAnswer cells id scheme items a → IsFilterAnswer cells id scheme items b → a ≡ b }
{}

/// A lookup has one answer.
pub fn one_lookup_answer()
    ensures { (cells : Entries) (id : List ℕ) (items : List Item) (default : Option (List ℕ))
        (a b : Reply)
        → IsLookupAnswer cells id items default a → IsLookupAnswer cells id items default b
        → a ≡ b }
{}

/// A lookup that may be widened has one answer, and where it is not widened that of a lookup.
pub fn one_lookup_answer_by()
    ensures one { (widening : Widening) (cells : Entries) (id : List ℕ) (items : List Item)
        (default : Option (List ℕ)) (a b : Reply)
        → IsLookupAnswerBy widening cells id items default a
        → IsLookupAnswerBy widening cells id items default b → a ≡ b }
    ensures off { (cells : Entries) (id : List ℕ) (items : List Item) (default : Option (List ℕ))
        (reply : Reply) → IsLookupAnswerBy Off cells id items default reply
        ↔ IsLookupAnswer cells id items default reply }
{}

/// A catalogue has one list of the messages that have live labels.
pub fn one_list_of_messages()
    ensures { (cells : Entries) (a b : List LiveMessage) → AreMessages cells a → AreMessages cells b
        → a ≡ b }
{}

/// Two catalogues have one list of changes. A key is in it exactly where their cells differ, with
/// both of them, and it is empty exactly where the catalogues are equal. The catalogue after is the
/// one before with the changes made, and exchanging the two exchanges before and after.
pub fn changes_are_what_differs()
    ensures one { (before after : Entries) (a b : Changed)
        → AreChanges before after a → AreChanges before after b → a ≡ b }
    ensures differ { (before after : Entries) (changes : Changed)
        → AreChanges before after changes → (key : EntryKey) (mine other : Option Cell)
        → (find key_cmp key changes ≡ Some (mine, other))
        ↔ ((find key_cmp key before ≡ mine) × (find key_cmp key after ≡ other) × (mine ≢ other)) }
    ensures alike { (before after : Entries) (changes : Changed)
        → AreChanges before after changes → (key : EntryKey)
        → (find key_cmp key changes ≡ None)
        ↔ (find key_cmp key before ≡ find key_cmp key after) }
    ensures empty { (before after : Entries) (changes : Changed)
        → AreChanges before after changes → IsMap key_cmp before → IsMap key_cmp after
        → (changes ≡ []) ↔ (before ≡ after) }
    ensures made { (before after : Entries) (changes : Changed)
        → AreChanges before after changes → IsMap key_cmp after → (made : Entries)
        → AreMade before changes made ↔ (made ≡ after) }
    ensures turned { (before after : Entries) (changes : Changed)
        → AreChanges before after changes → AreChanges after before (exchanged changes) }
{}

// ---- catalogues in parts, each with the cells of some of the messages

/// A part has at the keys of its messages what the whole has, and at no other key anything.
pub fn a_part_has_its_keys()
    ensures { (messages : List ℕ → Bool) (key : EntryKey) (cells : Entries)
        → find key_cmp key (part_of messages cells)
        ≡ (if messages key.0 then find key_cmp key cells else None) }
{}

/// The part of a join is the join of the parts, and parts of catalogues that agree do so.
pub fn a_part_of_a_join_is_the_join_of_parts()
    ensures agree { (messages : List ℕ → Bool) (a b : Entries) → Agree a b
        → Agree (part_of messages a) (part_of messages b) }
    ensures join { (messages : List ℕ → Bool) (a b : Entries) → IsMap key_cmp a → IsMap key_cmp b
        → part_of messages (joined a b) ≡ joined (part_of messages a) (part_of messages b) }
{}

/// A question about a message is answered by its part as by the whole.
pub fn a_part_answers_as_the_whole()
    ensures filter { (messages : List ℕ → Bool) (cells : Entries) (id : List ℕ)
        → IsTrue (messages id) → (scheme : Scheme) (items : List Item) (answer : Weighed)
        → IsFilterAnswer (part_of messages cells) id scheme items answer
        ↔ IsFilterAnswer cells id scheme items answer }
    ensures lookup { (messages : List ℕ → Bool) (cells : Entries) (id : List ℕ)
        → IsTrue (messages id) → (items : List Item) (default : Option (List ℕ)) (answer : Reply)
        → IsLookupAnswer (part_of messages cells) id items default answer
        ↔ IsLookupAnswer cells id items default answer }
    ensures widened { (messages : List ℕ → Bool) (cells : Entries) (id : List ℕ)
        → IsTrue (messages id) → (widening : Widening) (items : List Item)
        (default : Option (List ℕ)) (answer : Reply)
        → IsLookupAnswerBy widening (part_of messages cells) id items default answer
        ↔ IsLookupAnswerBy widening cells id items default answer }
{}

/// The changes of a part are the part of the changes.
pub fn a_part_of_changes()
    ensures { (messages : List ℕ → Bool) (before after : Entries) (changes : Changed)
        → AreChanges before after changes
        → AreChanges (part_of messages before) (part_of messages after)
        (part_of messages changes) }
{}

/// The live languages of each message are among the languages of the catalogue: what
/// [`Message::lookup_within`](crate::Message::lookup_within) asks of a shortlist.
pub fn languages_serve_each_message()
    ensures { (cells : Entries) (langs : LanguageMap) → AreLanguages cells langs → (id : List ℕ)
        → AreAmong (languages (live cells id)) (texts_in langs) }
{}

/// A question under an offer, which is that question of the cells that are offered: where all is
/// offered it is the question without one; no label is answered that is not offered; and whatever
/// cells there are in languages that are not offered, also none, the question is one.
pub fn what_is_offered_answers()
    ensures all { (cells : Entries) → offered_cells all_items cells ≡ cells }
    ensures matched { (offer : List Item) (cells : Entries) (id : List ℕ) (widening : Widening)
        (items : List Item) (default : Option (List ℕ)) (lang : List ℕ) (label : List (List ℕ))
        → IsLookupAnswerBy widening (offered_cells offer cells) id items default
        (Matched lang label) → IsTrue (is_offered offer lang) }
    ensures default { (offer : List Item) (cells : Entries) (id : List ℕ) (widening : Widening)
        (items : List Item) (default : Option (List ℕ)) (lang : List ℕ) (label : List (List ℕ))
        → IsLookupAnswerBy widening (offered_cells offer cells) id items default
        (Default lang label) → IsTrue (is_offered offer lang) }
    ensures filter { (offer : List Item) (cells : Entries) (id : List ℕ) (scheme : Scheme)
        (items : List Item) (answer : Weighed)
        → IsFilterAnswer (offered_cells offer cells) id scheme items answer
        → All (λ e. IsTrue (is_offered offer e.0)) answer }
    ensures rest { (offer : List Item) (a b : Entries) → IsMap key_cmp a → IsMap key_cmp b
        → ((key : EntryKey) → IsTrue (is_offered offer key.1)
        → find key_cmp key a ≡ find key_cmp key b)
        → offered_cells offer a ≡ offered_cells offer b }
{}
