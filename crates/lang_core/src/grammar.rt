//! The grammar of tags (RFC 5646 section 2.1).
ghost use Rattle.std.specs.Prelude.{◌≡◌, ◌<◌, ◌≤◌, [], ◌||◌, length, MatchOption};
ghost use Rattle.std.specs.Str.{str_to_ascii_lowercase};
ghost use Rattle.lang_core.specs.Tag.{IsTag};
ghost use Rattle.lang_core.specs.inner.Tag.{RefusesTagFirst};
ghost use Rattle.lang_core.specs.Grammar.{is_irregular};
ghost use Rattle.lang_core.specs.inner.Stage.{accepts, stage_after};

use crate::fault::LangFault;
use crate::irregular::is_irregular;
use crate::pieces::{HYPHEN, Pieces};
use crate::stage::Stage;
use crate::subtag::Subtag;

/// Why the text, of a tag's length, is no tag (RFC 5646 section 2.1), by a walk from subtag to
/// subtag, which finds where:
///
/// ```text
/// Language-Tag = langtag / privateuse / grandfathered
/// langtag      = language ["-" script] ["-" region] *("-" variant)
///                *("-" extension) ["-" privateuse]
/// language     = 2*3ALPHA ["-" extlang] / 4ALPHA / 5*8ALPHA
/// extlang      = 3ALPHA *2("-" 3ALPHA)
/// script       = 4ALPHA
/// region       = 2ALPHA / 3DIGIT
/// variant      = 5*8alphanum / (DIGIT 3alphanum)
/// extension    = singleton 1*("-" (2*8alphanum))
/// privateuse   = "x" 1*("-" (1*8alphanum))
/// ```
pub(crate) fn fault_by_subtags(text: &[u8]) -> Option<LangFault>
    requires { (0 < length text.now) × (length text.now ≤ 255) }
    ensures { let lower = str_to_ascii_lowercase text.now in
        MatchOption result (IsTag lower) (RefusesTagFirst lower) }
{
    let mut stage = Some(Stage::Start);
    let mut offset = 0;
    for piece in Pieces::new(text, HYPHEN) {
        let Some(subtag) = Subtag::read(piece) else {
            return Some(LangFault::TagSubtag { offset });
        };
        stage = stage_after(stage, &subtag);
        offset += piece.len() + 1;
    }
    if is_well_formed(stage, text) {
        None
    } else {
        Some(LangFault::TagNotWellFormed)
    }
}

/// The stage after one more subtag, or none once a subtag came that may not.
fn stage_after(stage: Option<Stage>, subtag: &Subtag) -> Option<Stage>
    ensures { result ≡ stage_after stage subtag.now }
{
    match stage {
        Some(stage) => stage.next(subtag),
        None => None,
    }
}

/// Whether the text is a tag, after whose last subtag the stage came.
#[tactic(auto, unfolding(crate::specs::inner::Stage::accepts))]
fn is_well_formed(last: Option<Stage>, text: &[u8]) -> bool
    ensures { result ≡ (accepts [] last || is_irregular (str_to_ascii_lowercase text.now)) }
{
    match last {
        Some(stage) => stage.is_complete() || is_irregular(text),
        None => is_irregular(text),
    }
}
