//! Laws about the definitions alone: each function's contract is the law.
ghost use Rattle.std.specs.Prelude.{◌≡◌, ◌≢◌, ℕ, List, Option, Some, map, true};
ghost use Rattle.std.specs.List.{list_all, range_with_len};
ghost use Rattle.cata_core.specs.Site.{SiteState};
ghost use Rattle.site_docs.specs.declared.checks.Checks.{Checks};
ghost use Rattle.front_core.specs.OpenSite.{IsMerged, IsTaken, LeavesMerge, LeavesTake};
ghost use Rattle.front_core.specs.Preferences.{FieldText, Text};
ghost use Rattle.front_core.specs.TagPick.{IsPickLine, RefusesPick};
ghost use Rattle.front_core.specs.Refusal.{are_lines, is_code, number_of_code, refusals};
ghost use Rattle.front_core.specs.declared.fault.FrontFault.{FrontFault};
ghost use Rattle.front_core.specs.declared.fault.FrontFault.TheVariants.{NoMemory};

/// A pick has one line.
pub fn one_pick_line()
    ensures { (field : FieldText) (default : Option Text) (tags : List Text) (a b : List ℕ)
        → IsPickLine field default tags a → IsPickLine field default tags b → a ≡ b }
{}

/// A pick that is refused for another cause than memory has no line.
pub fn refused_pick_has_no_line()
    ensures { (field : FieldText) (default : Option Text) (tags : List Text) (line : List ℕ)
        (fault : FrontFault)
        → RefusesPick field default tags fault → fault ≢ NoMemory
        → ¬ IsPickLine field default tags line }
{}

/// After a merge or a take that ran out of memory a repeat gives what it would have given.
pub fn a_join_can_be_repeated()
    ensures merge { (other : SiteState) (checks : Checks) (old new made : SiteState)
        → LeavesMerge other checks old new → IsMerged other checks old made
        → IsMerged other checks new made }
    ensures take { (bytes : Text) (checks : Checks) (old new made : SiteState)
        → LeavesTake bytes checks old new → IsTaken bytes checks old made
        → IsTaken bytes checks new made }
{}

/// The word of each refusal is its own, and has at most 32 small letters, digits and hyphens.
pub fn each_refusal_has_its_word()
    ensures code { list_all (λ texts. is_code texts.code) refusals ≡ true }
    ensures own { map (λ texts. number_of_code texts.code) refusals
        ≡ map (λ number. Some number) (range_with_len 1 31) }
{}

/// Each text of a refusal is one line; the printed text and the meaning have at most 255 bytes.
pub fn each_refusal_is_of_lines()
    ensures { list_all are_lines refusals ≡ true }
{}
