//! The parts of a tag (RFC 5646 sections 2.2.1 to 2.2.5), found by a walk from part to part.
ghost use Rattle.std.specs.Prelude.{◌≡◌, ◌∷◌, MatchOption};
ghost use Rattle.std.specs.Option.{option_copied, option_to_list};
ghost use Rattle.lang_core.specs.Text.{pieces};
ghost use Rattle.lang_core.specs.Tag.{HasSubtags};
ghost use Rattle.lang_core.specs.Grammar.{IsLangtag};
ghost use Rattle.lang_core.specs.Subtags.{subtags_left};
ghost use Rattle.lang_core.specs.Parts.{IsPart, language_of, extlangs_of, script_of, region_of};
ghost use Rattle.lang_core.specs.Parts.{variants_of};
ghost use Rattle.lang_core.specs.inner.Parts.{IsRest, after_language, after_extlangs, after_script};
ghost use Rattle.lang_core.specs.inner.Parts.{after_region};

use crate::kind::Kind;
use crate::subtags::Subtags;
use crate::tag_table::is_staged;

/// The language of a tag.
pub(crate) fn language(tag: &str) -> Option<&str>
    requires { HasSubtags tag.now }
    ensures { IsPart (pieces tag.now) language_of (option_to_list (option_copied result)) }
{
    match cut_language(tag) {
        Some((language, _)) => Some(language),
        None => None,
    }
}

/// The extlangs of a tag.
pub(crate) fn extlangs(tag: &str) -> Subtags<'_>
    requires { HasSubtags tag.now }
    ensures { IsPart (pieces tag.now) extlangs_of (subtags_left result) }
{
    after_language(tag).split_run(Kind::Extlang).0
}

/// The script of a tag.
pub(crate) fn script(tag: &str) -> Option<&str>
    requires { HasSubtags tag.now }
    ensures { IsPart (pieces tag.now) script_of (option_to_list (option_copied result)) }
{
    let (mut script, _) = after_extlangs(tag).split_run(Kind::Script);
    script.next()
}

/// The region of a tag.
pub(crate) fn region(tag: &str) -> Option<&str>
    requires { HasSubtags tag.now }
    ensures { IsPart (pieces tag.now) region_of (option_to_list (option_copied result)) }
{
    let (mut region, _) = after_script(tag).split_run(Kind::Region);
    region.next()
}

/// The variants of a tag.
pub(crate) fn variants(tag: &str) -> Subtags<'_>
    requires { HasSubtags tag.now }
    ensures { IsPart (pieces tag.now) variants_of (subtags_left result) }
{
    after_region(tag).split_run(Kind::Variant).0
}

/// The language and the subtags after it, or `None` for a tag that is no langtag.
fn cut_language(tag: &str) -> Option<(&str, Subtags<'_>)>
    requires { HasSubtags tag.now }
    ensures { MatchOption result
        (¬ IsLangtag (pieces tag.now))
        (λ x. IsLangtag (pieces tag.now) × (pieces tag.now ≡ x.0.now ∷ subtags_left x.1)) }
{
    // Irregular tags are not staged.
    if !is_staged(tag.as_bytes()) {
        return None;
    }
    let mut subtags = Subtags::new(tag);
    match subtags.next() {
        Some(first) => {
            if first == "x" {
                None
            } else {
                Some((first, subtags))
            }
        }
        None => unreachable!(),
    }
}

/// What is left after the language.
fn after_language(tag: &str) -> Subtags<'_>
    requires { HasSubtags tag.now }
    ensures { IsRest (pieces tag.now) after_language (subtags_left result) }
{
    match cut_language(tag) {
        Some((_, others)) => others,
        None => Subtags::none(),
    }
}

/// What is left after the extlangs.
fn after_extlangs(tag: &str) -> Subtags<'_>
    requires { HasSubtags tag.now }
    ensures { IsRest (pieces tag.now) after_extlangs (subtags_left result) }
{
    after_language(tag).split_run(Kind::Extlang).1
}

/// What is left after the script.
fn after_script(tag: &str) -> Subtags<'_>
    requires { HasSubtags tag.now }
    ensures { IsRest (pieces tag.now) after_script (subtags_left result) }
{
    after_extlangs(tag).split_run(Kind::Script).1
}

/// What is left after the region.
fn after_region(tag: &str) -> Subtags<'_>
    requires { HasSubtags tag.now }
    ensures { IsRest (pieces tag.now) after_region (subtags_left result) }
{
    after_script(tag).split_run(Kind::Region).1
}
