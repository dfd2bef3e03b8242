//! The rows of an array, taken one after another as they are read.
ghost use Rattle.std.specs.Prelude.{◌≡◌, ◌≢◌, ◌∷◌, [], ◌++◌, ◌<◌, ◌+◌, ◌≤◌, ◌^◌, ℕ, List, None};
ghost use Rattle.std.specs.Prelude.{true, length, MatchResult, OnOk, IfErr};
ghost use Rattle.serde_json.specs.Data.{Data, Items};
ghost use Rattle.json_docs.specs.ScanningArrays.{TakesRows};
ghost use Rattle.json_docs.specs.inner.ScanningArrays.{ReadsItems, ReadsNoItems, TakesNext};
ghost use Rattle.json_docs.specs.FaultChecks.{AllPass, Check, FirstFails, OrMemory};
ghost use Rattle.json_docs.specs.Numbers.{are_in_range};
ghost use Rattle.json_docs.specs.inner.ObjectMembersRead.{ReadsNone};
ghost use Rattle.json_docs.specs.ScanningReads.{Reads};
ghost use Rattle.json_docs.specs.Parts.{list_of};
ghost use Rattle.json_docs.specs.declared.fault.DocCause.TheVariants.{NoMemory, NotJson};
ghost use Rattle.row_docs.specs.CutsSeen.{IsRow};
ghost use Rattle.row_docs.specs.declared.version.Version.{Version};

use crate::cuts::{Cut, ROW_LEVELS, next_cut};
use crate::version::Version;
use json::Reader;
use json_docs::DocCause;
use std::alloc::Global;

/// Takes the rows of a document in their order, each only where it passes the tests of a row, and
/// makes something of them and of a start.
pub trait Rows<C> {
    /// The tests of a row of this version after those before it, in their order.
    ghost Checks: { Version → List Data → Data → List Check };

    /// The value is what these rows of this version make of the start.
    ghost Holds: { C → Version → Self → List Data → Type 0 };

    /// Begins anew from a start, without rows.
    fn restart(&mut self, alloc: Global, start: &C)
        ensures { (version : Version) → Holds start.now version self.new [] };

    /// Takes the row at this place, which is of this version.
    fn take(
        &mut self,
        alloc: Global,
        version: Version,
        place: usize,
        row: &Cut<'_>,
    ) -> Result<(), DocCause>
        requires read { (d : Data) × IsRow d row.now }
        requires held { (start : C) × (before : List Data) × (length before ≡ place)
            × Holds start version self.old before }
        ensures ok { OnOk result ((d : Data) (start : C) (before : List Data) → IsRow d row.now
            → length before ≡ place → Holds start version self.old before
            → AllPass (Checks version before d)
            × Holds start version self.new (before ++ d ∷ [])) }
        ensures err { IfErr result (OrMemory NoMemory (λ e. (d : Data) (start : C)
            (before : List Data) → IsRow d row.now → length before ≡ place
            → Holds start version self.old before
            → FirstFails (Checks version before d) e)) };
}

/// Reads an array after its `[`. Returns the first refused row, if any, but reads on: a syntax
/// error later in the text takes precedence.
pub(crate) fn read_rows<C, R: Rows<C>>(
    alloc: Global,
    reader: &mut Reader<'_>,
    depth: usize,
    version: Version,
    start: &C,
    rows: &mut R,
) -> Result<Option<DocCause>, DocCause>
    requires numbers { are_in_range reader.old ≡ true }
    requires places { length reader.old < 2 ^ 64 }
    requires deep { 3 < depth }
    ensures read { MatchResult result
        (λ refusal. (ds : Items) × ReadsItems depth reader.old ds reader.new
        × TakesRows (R.Checks version) (R.Holds start.now version) [] rows.new refusal
        (list_of ds))
        (OrMemory NoMemory (λ e. (e ≡ NotJson) × ReadsNoItems depth reader.old)) }
    ensures left { OnOk result (are_in_range reader.new ≡ true) }
    ensures shorter { OnOk result (length reader.new < length reader.old) }
{
    rows.restart(alloc, start);
    let mut refusal = None;
    let mut place = 0;
    while !reader.take_end_array() {
        match read_row::<C, R>(alloc, reader, depth, version, place, rows, refusal) {
            Ok(next) => refusal = next,
            Err(cause) => return Err(cause),
        }
        place += 1;
    }
    Ok(refusal)
}

/// Reads the next row, and takes it where no row was refused before it.
fn read_row<C, R: Rows<C>>(
    alloc: Global,
    reader: &mut Reader<'_>,
    depth: usize,
    version: Version,
    place: usize,
    rows: &mut R,
    refusal: Option<DocCause>,
) -> Result<Option<DocCause>, DocCause>
    requires numbers { are_in_range reader.old ≡ true }
    requires places { length reader.old < 2 ^ 64 }
    requires deep { 3 < depth }
    requires held { refusal ≡ None → (start : C) × (before : List Data) × (length before ≡ place)
        × R.Holds start version rows.old before }
    ensures read { MatchResult result
        (λ next. (d : Data) × Reads depth reader.old d reader.new
        × ((start : C) (before : List Data) → length before ≡ place
        → TakesNext (R.Checks version) (R.Holds start version) before refusal rows.old rows.new
        next d))
        (OrMemory NoMemory (ReadsNone depth reader.old)) }
    ensures left { OnOk result (are_in_range reader.new ≡ true) }
    ensures shorter { OnOk result (length reader.new < length reader.old) }
{
    match refusal {
        Some(cause) => pass_row(reader, depth, cause),
        None => take_row::<C, R>(alloc, reader, depth, version, place, rows),
    }
}

/// Skips a row after one that was refused.
fn pass_row(
    reader: &mut Reader<'_>,
    depth: usize,
    refusal: DocCause,
) -> Result<Option<DocCause>, DocCause>
    requires { are_in_range reader.old ≡ true }
    ensures read { MatchResult result
        (λ next. (d : Data) × Reads depth reader.old d reader.new × (next ≡ Some refusal))
        (ReadsNone depth reader.old) }
    ensures left { OnOk result (are_in_range reader.new ≡ true) }
    ensures shorter { OnOk result (length reader.new < length reader.old) }
{
    match reader.skip_value(depth) {
        Ok(()) => Ok(Some(refusal)),
        Err(_) => Err(DocCause::NotJson),
    }
}

/// Reads a row and takes it.
fn take_row<C, R: Rows<C>>(
    alloc: Global,
    reader: &mut Reader<'_>,
    depth: usize,
    version: Version,
    place: usize,
    rows: &mut R,
) -> Result<Option<DocCause>, DocCause>
    requires numbers { are_in_range reader.old ≡ true }
    requires places { length reader.old < 2 ^ 64 }
    requires deep { 3 < depth }
    requires held { (start : C) × (before : List Data) × (length before ≡ place)
        × R.Holds start version rows.old before }
    ensures read { MatchResult result
        (λ refusal. (d : Data) × Reads depth reader.old d reader.new
        × ((start : C) (before : List Data) → length before ≡ place
        → R.Holds start version rows.old before
        → TakesRows (R.Checks version) (R.Holds start version) before rows.new refusal (d ∷ [])))
        (OrMemory NoMemory (ReadsNone depth reader.old)) }
    ensures left { OnOk result (are_in_range reader.new ≡ true) }
    ensures shorter { OnOk result (length reader.new < length reader.old) }
{
    let row = next_cut(alloc, reader, depth, ROW_LEVELS)?;
    take_or_refuse::<C, R>(alloc, version, place, &row, rows)
}

/// Takes a row, or says why it is refused; out of memory is no refusal.
fn take_or_refuse<C, R: Rows<C>>(
    alloc: Global,
    version: Version,
    place: usize,
    row: &Cut<'_>,
    rows: &mut R,
) -> Result<Option<DocCause>, DocCause>
    requires read { (d : Data) × IsRow d row.now }
    requires held { (start : C) × (before : List Data) × (length before ≡ place)
        × R.Holds start version rows.old before }
    ensures { MatchResult result
        (λ refusal. (d : Data) (start : C) (before : List Data) → IsRow d row.now
        → length before ≡ place → R.Holds start version rows.old before
        → TakesRows (R.Checks version) (R.Holds start version) before rows.new refusal (d ∷ []))
        (λ e. e ≡ NoMemory) }
{
    match rows.take(alloc, version, place, row) {
        Ok(()) => Ok(None),
        Err(cause) => {
            let refusal = unless_memory(cause)?;
            Ok(Some(refusal))
        }
    }
}

/// The refusal, unless it is out of memory.
fn unless_memory(cause: DocCause) -> Result<DocCause, DocCause>
    ensures { MatchResult result (λ e. (e ≡ cause) × (cause ≢ NoMemory)) (λ e. e ≡ NoMemory) }
{
    match cause {
        DocCause::NoMemory => Err(DocCause::NoMemory),
        other => Ok(other),
    }
}
