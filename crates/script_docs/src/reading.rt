//! Documents of scripts, read.
ghost use Rattle.std.specs.Prelude.{◌≡◌, None, Some, is_some, true, MatchResult};
ghost use Rattle.serde_json.specs.Data.{Data};
ghost use Rattle.json_docs.specs.FaultChecks.{AllPass, AreJson, OrMemory};
ghost use Rattle.row_docs.specs.Headers.{IsSubject, rows_in, subject_data, version_of};
ghost use Rattle.row_docs.specs.Reading.{IsOfDocument, no_memory};
ghost use Rattle.script_docs.specs.Reading.{ReadsAsScript, RefusesScript, count_of};
ghost use Rattle.script_docs.specs.Reading.{script_checks, sites_in};
ghost use Rattle.script_docs.specs.Scripts.{IsSiteCount};
ghost use Rattle.script_docs.specs.StepFields.{AreSteps};
ghost use Rattle.row_docs.specs.declared.kind.Kind.TheVariants as kind;
ghost use Rattle.json_docs.specs.declared.fault.DocCause.TheVariants.{NoMemory, Shape};
ghost use Rattle.json_docs.specs.declared.fault.Spot.TheVariants as spot;

use crate::scripts::{Script, Steps};
use json_docs::{DocCause, DocFault, Spot};
use row_docs::{Kind, Subject, read_header};
use std::alloc::Global;

/// The most sites of a script.
const MAX_SITES: u64 = 1024;

/// The script of a document of version 1 or 2. In version 1 each site number of a stamp is read as
/// its padded name; the sites of steps are places in both.
///
/// Refusals, in their order: 18, 19, 20 for the document, 28, 20 for the document, also where there
/// are not 1 to 1,024 sites; each row 20, then the fields of its step: message id (10), language (1
/// to 4), site name (27) and label (12, 11) of an edit, message id (10), priority list (8, 9) and
/// default (1 to 4) of a question; 26, which may come before a later one. All but 26 name document
/// 1.
pub fn read_script(alloc: Global, bytes: &[u8]) -> Result<Script, DocFault>
    ensures { MatchResult result (ReadsAsScript bytes.now)
        (OrMemory no_memory (IsOfDocument 1 (RefusesScript bytes.now))) }
{
    match script_from(alloc, bytes) {
        Ok(script) => Ok(script),
        Err(cause) => Err(DocFault::of_document(1, cause)),
    }
}

/// The script of a document, or why it is refused.
fn script_from(alloc: Global, bytes: &[u8]) -> Result<Script, DocCause>
    ensures { MatchResult result (ReadsAsScript bytes.now)
        (OrMemory NoMemory (RefusesScript bytes.now)) }
{
    let mut steps = Steps::new(alloc);
    match read_steps(alloc, bytes, &mut steps) {
        Ok(sites) => Ok(steps.into_script(sites)),
        Err(cause) => Err(cause),
    }
}

/// Reads the steps, and answers how many sites there are.
fn read_steps(alloc: Global, bytes: &[u8], steps: &mut Steps) -> Result<usize, DocCause>
    ensures { MatchResult result
        (λ sites. (d : Data) × AreJson bytes.now d × AllPass (script_checks d) × IsSiteCount sites
        × (sites_in (subject_data kind.Script d) ≡ Some sites)
        × AreSteps (version_of d) (rows_in kind.Script d) steps.new.steps.items)
        (OrMemory NoMemory (RefusesScript bytes.now)) }
{
    let tested = match read_header(alloc, bytes, Kind::Script, &(), steps) {
        Ok(tested) => tested,
        Err(cause) => return Err(cause),
    };
    let sites = match site_count(tested.subject) {
        Ok(sites) => sites,
        Err(cause) => return Err(cause),
    };
    match tested.refusal {
        Some(cause) => Err(cause),
        None => Ok(sites),
    }
}

/// How many sites there are.
fn site_count(subject: Subject) -> Result<usize, DocCause>
    ensures { (d : Data) → IsSubject subject d → MatchResult result
        (λ sites. IsSiteCount sites × (sites_in d ≡ Some sites))
        (λ e. (¬ (is_some (sites_in d) ≡ true)) × (e ≡ Shape spot.Document)) }
{
    match subject {
        Subject::Number(number) => count_of(number),
        _ => Err(DocCause::Shape {
            spot: Spot::Document,
        }),
    }
}

/// The number of sites, where a script may have as many.
fn count_of(number: u64) -> Result<usize, DocCause>
    ensures { MatchResult result
        (λ sites. IsSiteCount sites × (count_of number ≡ Some sites))
        (λ e. (count_of number ≡ None) × (e ≡ Shape spot.Document)) }
{
    if number >= 1 && number <= MAX_SITES {
        Ok(number as usize)
    } else {
        Err(DocCause::Shape {
            spot: Spot::Document,
        })
    }
}
