//! Laws about the definitions alone: each function's contract is the law.
ghost use Rattle.std.specs.Prelude.{◌≡◌, ◌≢◌, ◌≤◌, ◌==◌, ◌↔◌, ◌⊎◌, ◌∷◌, ℕ, List, Option, Some};
ghost use Rattle.std.specs.Prelude.{None, [], true, Bool, IsTrue, All, AllPairs, Contains};
ghost use Rattle.std.specs.Prelude.{IsPermutation};
ghost use Rattle.std.specs.Prelude.{filter, map};
ghost use Rattle.lang_core.specs.Text.{pieces, joined};
ghost use Rattle.list_core.specs.Item.{Item};
ghost use Rattle.list_core.specs.declared.scheme.Scheme.{Scheme};
ghost use Rattle.nego_core.specs.Filtering.{IsFiltered, IsPicked};
ghost use Rattle.list_core.specs.LookupOrder.{is_tried, IsOrder};
ghost use Rattle.list_core.specs.Candidates.{candidates_of};
ghost use Rattle.nego_core.specs.Choosing.{AreSameChoice, IsChosen, IsLookedUp};
ghost use Rattle.nego_core.specs.Shortlist.{IsChosenBy};
ghost use Rattle.nego_core.specs.WidenedChoice.{IsChosenWidened};
ghost use Rattle.nego_core.specs.declared.choosing.Choice.{Choice};
ghost use Rattle.nego_core.specs.declared.widening.Widening.{Widening};
ghost use Rattle.nego_core.specs.LookupPlaces.{IsFound};
ghost use Rattle.nego_core.specs.LangSet.{is_among};
ghost use Rattle.nego_core.specs.Widening.{IsFoundWidened, IsLookedUpWidened};
ghost use Rattle.list_core.specs.Deciding.{MatchesLang};
ghost use Rattle.list_core.specs.Deciding.{NamedRefuse};
ghost use Rattle.list_core.specs.Deciding.{IsRefusedLang};
ghost use Rattle.nego_core.specs.ChoosingUnweighted.{AllUnweighted, IsMatchedAt, IsFirstHeld};
ghost use Rattle.list_core.specs.Item.{AllPositive};
ghost use Rattle.lang_core.specs.Lang.{none_text};
ghost use Rattle.list_core.specs.declared.scheme.Scheme.TheVariants as scheme;
ghost use Rattle.nego_core.specs.Filtering.{HasPick};
ghost use Rattle.nego_core.specs.Offer.{IsPrivateUse, all_items, is_offered, public_items};
ghost use Rattle.nego_core.specs.declared.lookup_places.Found.{Found};
ghost use Rattle.nego_core.specs.declared.filtering.Pick.{Pick};

pub use list_core::laws::{
    a_match_has_a_deciding_item, field_is_of_one_kind, items_are_of_elements,
    malformed_is_no_field, named_refuse_alone, one_deciding, one_item_list, one_malformed_offset,
    one_order, same_items_where_none_is_malformed,
};

/// Where no weight is 0, no tag and no language is refused.
pub fn nothing_refused()
    ensures tags { (items : List Item) (tag : List (List ℕ))
        → AllPositive items → ¬ NamedRefuse items tag }
    ensures langs { (scheme : Scheme) (items : List Item) (lang : List ℕ)
        → AllPositive items → ¬ IsRefusedLang scheme items lang }
{}

/// Lookup finds one text, or none (RFC 4647 section 3.4).
pub fn one_lookup()
    ensures { (items : List Item) (held : List ℕ → Bool) (a b : Option (List (List ℕ)))
        → IsLookedUp items held a → IsLookedUp items held b → a ≡ b }
{}

/// What lookup finds is the lookup text of the range of an item that it tries, or a truncation of
/// it; it is in the set, and the items other than "*" do not refuse it. Where lookup finds nothing
/// there is no such text.
pub fn found_is_a_candidate()
    ensures candidate { (items : List Item) (held : List ℕ → Bool) (found : List (List ℕ))
        → IsLookedUp items held (Some found)
        → (item : Item) × Contains items item × Contains (candidates_of item) found
        × IsTrue (is_tried item) }
    ensures open { (items : List Item) (held : List ℕ → Bool) (found : List (List ℕ))
        → IsLookedUp items held (Some found)
        → IsTrue (held (joined found)) × ¬ NamedRefuse items found }
    ensures none { (items : List Item) (held : List ℕ → Bool) (item : Item)
        (candidate : List (List ℕ))
        → IsLookedUp items held None → Contains items item → IsTrue (is_tried item)
        → Contains (candidates_of item) candidate
        → ¬ (IsTrue (held (joined candidate)) × ¬ NamedRefuse items candidate) }
{}

/// By a list without weights lookup finds the first text that the set has, of the ranges other than
/// "*" as written, each through its truncations (RFC 4647 section 3.4).
pub fn unweighted_lookup()
    ensures { (items : List Item) (held : List ℕ → Bool) (found : Option (List (List ℕ)))
        → AllUnweighted items → IsLookedUp items held found ↔ IsFirstHeld items held found }
{}

/// A choice with a default is one: of one text, of the default, or of nothing.
pub fn one_choice()
    ensures lookup { (items : List Item) (held : List ℕ → Bool) (default : Option (List ℕ))
        (a b : Choice) → IsChosen items held default a → IsChosen items held default b
        → AreSameChoice a b }
    ensures widened { (scheme : Scheme) (items : List Item) (langs : List (List ℕ))
        (default : Option (List ℕ)) (a b : Choice) → IsChosenWidened scheme items langs default a
        → IsChosenWidened scheme items langs default b → AreSameChoice a b }
    ensures shortlist { (widening : Widening) (items : List Item) (langs : List (List ℕ))
        (default : Option (List ℕ)) (a b : Choice) → IsChosenBy widening items langs default a
        → IsChosenBy widening items langs default b → AreSameChoice a b }
{}

/// Lookup over a slice of languages has one answer.
pub fn one_found()
    ensures { (items : List Item) (langs : List (List ℕ)) (default : Option (List ℕ)) (a b : Found)
        → IsFound items langs default a → IsFound items langs default b → a ≡ b }
{}

/// Widened lookup finds one text, or none.
pub fn one_widened_lookup()
    ensures { (scheme : Scheme) (items : List Item) (langs : List (List ℕ))
        (a b : Option (List (List ℕ)))
        → IsLookedUpWidened scheme items langs a → IsLookedUpWidened scheme items langs b → a ≡ b }
{}

/// Widened lookup over a slice of languages has one answer.
pub fn one_found_widened()
    ensures { (scheme : Scheme) (items : List Item) (langs : List (List ℕ))
        (default : Option (List ℕ)) (a b : Found) → IsFoundWidened scheme items langs default a
        → IsFoundWidened scheme items langs default b → a ≡ b }
{}

/// What widened lookup finds is one of the languages, the items other than "*" do not refuse it,
/// and it is a candidate of an item that is tried, or that item's range matches it.
pub fn widened_is_a_candidate_or_matched()
    ensures open { (scheme : Scheme) (items : List Item) (langs : List (List ℕ))
        (found : List (List ℕ)) → IsLookedUpWidened scheme items langs (Some found)
        → Contains langs (joined found) × ¬ NamedRefuse items found }
    ensures item { (scheme : Scheme) (items : List Item) (langs : List (List ℕ))
        (found : List (List ℕ)) → IsLookedUpWidened scheme items langs (Some found)
        → (item : Item) × Contains items item × IsTrue (is_tried item)
        × (Contains (candidates_of item) found ⊎ MatchesLang scheme item (joined found)) }
{}

/// Where widened lookup finds nothing, lookup finds nothing.
pub fn widened_finds_no_less()
    ensures { (scheme : Scheme) (items : List Item) (langs : List (List ℕ))
        → IsLookedUpWidened scheme items langs None → IsLookedUp items (is_among langs) None }
{}

/// Where lookup finds a candidate of the first item in the order, widened lookup finds the same.
pub fn widened_keeps_the_first_item()
    ensures { (scheme : Scheme) (items : List Item) (langs : List (List ℕ)) (first : Item)
        (rest : List Item) (found : List (List ℕ)) → IsOrder items (first ∷ rest)
        → IsLookedUp items (is_among langs) (Some found) → Contains (candidates_of first) found
        → IsLookedUpWidened scheme items langs (Some found) }
{}

/// Where no range that lookup tries matches a language that is not one of its candidates, widened
/// lookup and lookup find the same.
pub fn widened_is_lookup_where_nothing_is_added()
    ensures { (scheme : Scheme) (items : List Item) (langs : List (List ℕ))
        (found : Option (List (List ℕ)))
        → ((item : Item) → Contains items item → IsTrue (is_tried item) → (lang : List ℕ)
        → Contains langs lang → MatchesLang scheme item lang
        → Contains (candidates_of item) (pieces lang))
        → IsLookedUpWidened scheme items langs found ↔ IsLookedUp items (is_among langs) found }
{}

/// There is one filtered list.
pub fn one_filtered()
    ensures { (scheme : Scheme) (items : List Item) (langs : List (List ℕ)) (a b : List Pick)
        → IsFiltered scheme items langs a → IsFiltered scheme items langs b → a ≡ b }
{}

/// A filtered list has exactly the languages that an item of positive weight decides, each with
/// that weight.
pub fn filtered_has_each()
    ensures { (scheme : Scheme) (items : List Item) (langs : List (List ℕ)) (picks : List Pick)
        → All (λ i. i.weight ≤ 1000) items → IsFiltered scheme items langs picks
        → (pick : Pick) → Contains picks pick ↔ IsPicked scheme items langs pick }
{}

/// No place is picked twice.
pub fn picks_differ()
    ensures { (scheme : Scheme) (items : List Item) (langs : List (List ℕ)) (picks : List Pick)
        → IsFiltered scheme items langs picks → AllPairs (λ p q. p.place ≢ q.place) picks }
{}

/// By a list without a weight 0 filtering gives all tags that some range of the list matches
/// (RFC 4647 section 3.3).
pub fn unweighted_filtering()
    ensures { (scheme : Scheme) (items : List Item) (langs : List (List ℕ)) (picks : List Pick)
        → AllPositive items → IsFiltered scheme items langs picks
        → (place : ℕ) → Contains (map (λ p. p.place) picks) place
        ↔ IsMatchedAt scheme items langs place }
{}

/// The order has each item that lookup tries, as often as the list has it.
pub fn order_has_each_once()
    ensures { (items ordered : List Item)
        → IsOrder items ordered → IsPermutation (filter is_tried items) ordered }
{}

/// The order falls by weight, and items of one weight are in it as written.
pub fn order_falls()
    ensures falls { (items ordered : List Item) → All (λ i. i.weight ≤ 1000) items
        → IsOrder items ordered → AllPairs (λ i j. j.weight ≤ i.weight) ordered }
    ensures written { (items ordered : List Item) → IsOrder items ordered → (weight : ℕ)
        → filter (λ i. i.weight == weight) ordered
        ≡ filter (λ i. i.weight == weight) (filter is_tried items) }
{}

/// A list offers a language exactly where it is `@none`, or where basic filtering (RFC 4647 section
/// 3.3.1) of this language alone gives it.
pub fn offered_is_filtered()
    ensures { (items : List Item) (lang : List ℕ) → IsTrue (is_offered items lang)
        ↔ ((lang ≡ none_text) ⊎ HasPick scheme.Basic items (lang ∷ [])) }
{}

/// The field `*` offers all languages, and `*, x;q=0` all but those of private use.
pub fn all_or_public_is_offered()
    ensures all { (lang : List ℕ) → is_offered all_items lang ≡ true }
    ensures public { (lang : List ℕ) → IsTrue (is_offered public_items lang)
        ↔ (¬ IsPrivateUse lang) }
{}
