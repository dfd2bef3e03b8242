//! Documents of scripts, written.
ghost use Rattle.std.specs.Prelude.{◌≡◌, ◌∷◌, [], ℕ, List, IfErr, IfOk, IsUtf8, MatchResult, OnOk};
ghost use Rattle.json.specs.Token.{end_array};
ghost use Rattle.serde_json.specs.Data.{Data};
ghost use Rattle.row_docs.specs.inner.WritingEnvelope.{version_tokens};
ghost use Rattle.row_docs.specs.WritingTexts.{Adds, text};
ghost use Rattle.script_docs.specs.Writing.{IsOfNone, IsScriptText, RefusesWriting, script_value};
ghost use Rattle.script_docs.specs.inner.Writing.{HasRows, HoldsSteps};
ghost use Rattle.script_docs.specs.Scripts.{IsSiteCount};

use crate::scripts::Script;
use crate::step_writing::write_step;
use json::Writer;
use json_docs::{Doc, DocCause, DocFault};
use row_docs::finish;
use std::alloc::{AllocError, Global};

/// The document of a script, version 2: a row for each step, and a priority list as its items with
/// a comma between each two. It reads as this script.
///
/// Refused is the first step that no document can have, in its row (20): the number of a site, a
/// told summary or a post is over 32 bits, or no field under the scheme of a question gives its
/// priority list. The one other refusal is out of memory (26). Both mean no document, since none is
/// read.
pub fn write_script(alloc: Global, script: &Script) -> Result<Doc, DocFault>
    ensures { MatchResult result (IsScriptText script.now)
        (IsOfNone (RefusesWriting script.now.steps)) }
{
    match script_document(alloc, script) {
        Ok(doc) => Ok(doc),
        Err(cause) => Err(DocFault::of_no_document(cause)),
    }
}

/// The document of a script, or the refusal of its first step that no document can have.
fn script_document(alloc: Global, script: &Script) -> Result<Doc, DocCause>
    ensures ok { IfOk result (IsScriptText script.now) }
    ensures err { IfErr result (RefusesWriting script.now.steps) }
{
    let draft = steps_draft(alloc, script)?;
    let doc = close_steps(draft)?;
    Ok(doc)
}

/// A script's document with all its steps, not yet closed.
fn steps_draft(alloc: Global, script: &Script) -> Result<Writer, DocCause>
    ensures ok { IfOk result (λ draft. HasRows draft script.now.sites script.now.steps) }
    ensures count { IfOk result (λ _. IsSiteCount script.now.sites) }
    ensures err { IfErr result (RefusesWriting script.now.steps) }
{
    let mut draft = open_steps(alloc, script.sites())?;
    let steps = script.steps();
    for place in 0..steps.len() {
        write_step(alloc, &mut draft, place, &steps[place])?;
    }
    Ok(draft)
}

/// Opens a script's document, with no row yet.
fn open_steps(alloc: Global, sites: usize) -> Result<Writer, AllocError>
    ensures { IfOk result (λ draft. HoldsSteps draft sites []) }
{
    let mut draft = Writer::new(Vec::new(alloc));
    draft.begin_object()?;
    draft.key("kind")?;
    draft.string("script")?;
    draft.key("sites")?;
    draft.u64(sites as u64)?;
    draft.key("steps")?;
    draft.begin_array()?;
    Ok(draft)
}

/// Closes a script's document after its rows.
fn close_steps(mut draft: Writer) -> Result<Doc, AllocError>
    ensures text { (sites : ℕ) (rows : List Data) → HoldsSteps draft sites rows
        → IfOk result (λ doc. doc ≡ text (script_value sites rows)) }
    ensures utf8 { IfOk result (λ doc. draft.before ≡ [] → IsUtf8 doc) }
{
    end_steps(&mut draft)?;
    finish(draft)
}

/// Closes the rows, and adds the version.
fn end_steps(draft: &mut Writer) -> Result<(), AllocError>
    ensures { OnOk result (Adds draft.old draft.new (end_array ∷ version_tokens)) }
{
    draft.end_array()?;
    draft.key("version")?;
    draft.u64(2)?;
    draft.end_object()
}
