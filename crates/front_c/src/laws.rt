//! Laws about the definitions alone: each function's contract is the law.

ghost use Rattle.std.specs.Prelude.{ℕ, List, Option};
ghost use Rattle.cata_core.specs.Site.{SiteState};
ghost use Rattle.site_docs.specs.declared.checks.Checks.{Checks};
ghost use Rattle.cell_core.specs.Entry.{key_cmp};
ghost use Rattle.cell_core.specs.Keyed.{IsMap};
ghost use Rattle.front_core.specs.Ask.{HasQuestion, IsFilter, IsLookup, RefusesFilter};
ghost use Rattle.front_core.specs.Ask.{RefusesLookup};
ghost use Rattle.front_core.specs.Fault.{IsDecided};
ghost use Rattle.front_core.specs.Offering.{Offers};
ghost use Rattle.front_core.specs.OpenSite.{AreUpdated, IsDeleted, IsImported, IsMerged, IsPutInto};
ghost use Rattle.front_core.specs.OpenSite.{IsTaken, RefusesDelete, RefusesImport, RefusesMerge};
ghost use Rattle.front_core.specs.OpenSite.{RefusesPutInto, RefusesTake, RefusesUpdates};
ghost use Rattle.front_core.specs.Preferences.{FieldText, Text};
ghost use Rattle.front_core.specs.Reader.{IsReader, RefusesReader};
ghost use Rattle.front_core.specs.TagFilter.{IsOfferedFilter, IsTagFilter};
ghost use Rattle.front_core.specs.TagFilter.{RefusesOfferedFilter, RefusesTagFilter};
ghost use Rattle.front_core.specs.TagPick.{IsPickedOffered, IsPickLine, RefusesPick};
ghost use Rattle.front_core.specs.TagPick.{RefusesPickOffered};
ghost use Rattle.front_core.specs.declared.tag_pick.Picked.{Picked};
ghost use Rattle.front_core.specs.Translate.{IsMissing, IsOutdated, RefusesMissing};
ghost use Rattle.front_core.specs.Translate.{RefusesOutdated};

/// What is answered, or made of a site whose cells ascend, is refused for no cause but the lack of
/// memory, by which each call may end; and each other refusal is one, with its number, index, row
/// and document.
pub fn what_is_answered_is_not_refused()
    ensures put { (now : ℕ) (id lang text : Text) (old : SiteState)
        → IsDecided ((new : SiteState) × IsPutInto now id lang text old new)
        (RefusesPutInto now id lang text old) }
    ensures delete { (now : ℕ) (id lang : Text) (old : SiteState) → IsDecided
        ((new : SiteState) × IsDeleted now id lang old new) (RefusesDelete now id lang old) }
    ensures merge { (other : SiteState) (checks : Checks) (old : SiteState)
        → IsMap key_cmp old.cells → IsDecided
        ((new : SiteState) × IsMerged other checks old new) (RefusesMerge other checks old) }
    ensures take { (bytes : Text) (checks : Checks) (old : SiteState) → IsMap key_cmp old.cells
        → IsDecided ((new : SiteState) × IsTaken bytes checks old new)
        (RefusesTake bytes checks old) }
    ensures import { (now : ℕ) (maps : Text) (old : SiteState) → IsDecided
        ((new : SiteState) × IsImported now maps old new) (RefusesImport now maps old) }
    ensures update { (now : ℕ) (old new : Text) (site : SiteState) → IsDecided
        ((made : SiteState) × AreUpdated now old new site made) (RefusesUpdates now old new site) }
    ensures lookup { (id : Text) (offers : Offers) (field : FieldText) (word : Option Text)
        → IsDecided (HasQuestion (IsLookup id offers field word))
        (RefusesLookup id offers field word) }
    ensures filter { (id : Text) (offers : Offers) (field : FieldText) → IsDecided
        (HasQuestion (IsFilter id offers field)) (RefusesFilter id offers field) }
    ensures bundle { (offers : Offers) (field : FieldText) (word : Option Text) → IsDecided
        (HasQuestion (IsReader offers field word)) (RefusesReader offers field word) }
    ensures missing { (word : Text)
        → IsDecided (HasQuestion (IsMissing word)) (RefusesMissing word) }
    ensures outdated { (word other : Text)
        → IsDecided (HasQuestion (IsOutdated word other)) (RefusesOutdated word other) }
    ensures pick { (field : FieldText) (default : Option Text) (tags : List Text)
        → IsDecided ((line : Text) × IsPickLine field default tags line)
        (RefusesPick field default tags) }
    ensures tags { (field : FieldText) (tags : List Text)
        → IsDecided (HasQuestion (IsTagFilter field tags)) (RefusesTagFilter field tags) }
    ensures offered_pick { (offers : Offers) (field : FieldText) (default : Option Text)
        (tags : List Text) → IsDecided
        ((picked : Picked) × IsPickedOffered offers field default tags picked)
        (RefusesPickOffered offers field default tags) }
    ensures offered_tags { (offers : Offers) (field : FieldText) (tags : List Text)
        → IsDecided (HasQuestion (IsOfferedFilter offers field tags))
        (RefusesOfferedFilter offers field tags) }
{}
