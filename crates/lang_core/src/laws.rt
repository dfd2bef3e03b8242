//! Laws about the definitions alone: each function's contract is the law.
ghost use Rattle.std.specs.Prelude.{ℕ, ◌≡◌, ◌⊎◌, List, [], ◌∷◌, ◌++◌, Bool, IsTrue, ◌↔◌};
ghost use Rattle.lang_core.specs.Text.{pieces};
ghost use Rattle.lang_core.specs.Tag.{IsTag};
ghost use Rattle.lang_core.specs.Grammar.{BasicRange, ExtendedRange, IsFirstRefused};
ghost use Rattle.lang_core.specs.Grammar.{IsLangtag, IsPrivate, is_irregular};
ghost use Rattle.lang_core.specs.Parts.{HaveSameParts, language_of, extlangs_of, script_of};
ghost use Rattle.lang_core.specs.Parts.{region_of, variants_of};
ghost use Rattle.lang_core.specs.Lang.{none_text};
ghost use Rattle.lang_core.specs.Matching.{Basic, BasicInBytes, Embeds, greedy, is_basic_match};
ghost use Rattle.lang_core.specs.Matching.{without_stars, as_basic};
ghost use Rattle.lang_core.specs.TruncationsCandidates.{candidates, candidates_left, shortened};

/// A range's subtags other than "*" embed in a tag's exactly where pairing them greedily succeeds
/// (RFC 4647 section 3.3.2).
pub fn greedy_pairs_all()
    ensures { (range given : List (List ℕ))
        → IsTrue (greedy range given) ↔ Embeds (without_stars range) given }
{}

/// The test for basic matching is the relation (RFC 4647 section 3.3.1).
pub fn basic_test_is_basic()
    ensures { (range tag : List (List ℕ)) → IsTrue (is_basic_match range tag) ↔ Basic range tag }
{}

/// Basic matching of subtags is that of texts: the range is "*", equals the tag, or is the part of
/// the tag before one of its hyphens (RFC 4647 section 3.3.1).
pub fn basic_in_bytes()
    ensures { (range tag : List ℕ) → Basic (pieces range) (pieces tag) ↔ BasicInBytes range tag }
{}

/// An extended range as a basic one is a basic range, and a basic range stays as it is
/// (RFC 4647 section 3.2).
pub fn as_basic_is_basic()
    ensures extended { (range : List (List ℕ)) → ExtendedRange range → BasicRange (as_basic range) }
    ensures basic { (range : List (List ℕ)) → BasicRange range → as_basic range ≡ range }
{}

/// A langtag has one derivation: two have the same language with its extlangs, the same script,
/// region, variants, extensions and private use (RFC 5646 section 2.1).
pub fn one_derivation()
    ensures { (list : List (List ℕ)) (a b : IsLangtag list) → HaveSameParts a b }
{}

/// The subtags of a langtag are its language, extlangs, script, region and variants in this order,
/// and then its extensions and its private use (RFC 5646 section 2.1).
pub fn parts_in_order()
    ensures { (list : List (List ℕ)) (t : IsLangtag list) → list
        ≡ language_of t ++ (extlangs_of t ++ (script_of t ++ (region_of t ++ (variants_of t
        ++ (t.extensions ++ t.private))))) }
{}

/// A tag of private use alone and an irregular tag are no langtags, so they have none of its parts
/// (RFC 5646 section 2.1).
pub fn only_langtags_have_parts()
    ensures private { (list : List (List ℕ)) → IsPrivate list → ¬ IsLangtag list }
    ensures irregular { (text : List ℕ) → IsTrue (is_irregular text) → ¬ IsLangtag (pieces text) }
{}

/// The text `@none` is no tag, so a language is a tag or `@none`, and never both.
pub fn none_is_no_tag()
    ensures { ¬ IsTag none_text }
{}

/// A range is truncated by steps: the last subtag goes, and the single letters and digits right
/// before it go with it, until no subtag is left (RFC 4647 section 3.4).
pub fn truncation_by_steps()
    ensures step { (range : List (List ℕ)) → BasicRange range
        → candidates range ≡ range ∷ candidates_left (shortened range) }
    ensures basic { (range : List (List ℕ)) → BasicRange range
        → (shortened range ≡ []) ⊎ BasicRange (shortened range) }
{}

/// The first subtag that is not allowed at its place begins at one offset.
pub fn one_refused_offset()
    ensures { (allowed : ℕ → List ℕ → Bool) (list : List (List ℕ)) (a b : ℕ)
        → IsFirstRefused allowed list a → IsFirstRefused allowed list b → a ≡ b }
{}
