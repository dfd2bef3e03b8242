//! Values read only as far as a row may have them: no other part of one takes memory.
ghost use Rattle.std.specs.Prelude.{◌≡◌, ◌<◌, ◌≤◌, ◌+◌, ◌^◌, ◌∷◌, ◌++◌, [], ℕ, List, MatchResult};
ghost use Rattle.std.specs.Prelude.{OnOk, false, length, nat_lt, if◌then◌else◌, option_map, suc};
ghost use Rattle.std.specs.Prelude.{true};
ghost use Rattle.json.specs.Reads.{token_of};
ghost use Rattle.json.specs.Value.{value_view};
ghost use Rattle.serde_json.specs.Data.{Data, Items, Members, array};
ghost use Rattle.json_docs.specs.FaultChecks.{OrMemory};
ghost use Rattle.json_docs.specs.Numbers.{are_in_range};
ghost use Rattle.json_docs.specs.inner.ObjectMembersRead.{ReadsMembers, ReadsNoMembers, ReadsNone};
ghost use Rattle.json_docs.specs.Parts.{list_of};
ghost use Rattle.json_docs.specs.inner.ScanningArrays.{ReadsItems, ReadsNoItems};
ghost use Rattle.json_docs.specs.ScanningReads.{Reads};
ghost use Rattle.json_docs.specs.declared.fault.DocCause.TheVariants.{NoMemory, NotJson};
ghost use Rattle.row_docs.specs.Cuts.{recounted};
ghost use Rattle.row_docs.specs.inner.Cuts.{has_room, scalar_in};
ghost use Rattle.row_docs.specs.CutsSeen.{IsCut};
ghost use Rattle.row_docs.specs.inner.CutsSeen.{IsNothing, Keeps, KeepsItems};

use cell_core::CellFault;
use json::{Reader, Token, Value};
use json_docs::{DocCause, FieldFault, next_name, text_of};
use std::alloc::Global;

/// How deep arrays nest in a row: a step of a script, the row of its edit, and that row's label.
pub(crate) const ROW_LEVELS: usize = 3;

/// The most items of an array in a row that are not texts alone.
const MAX_ITEMS: usize = 6;

/// How many texts of an array are kept: one more than a label has.
const MAX_TEXTS: usize = 65;

/// A value as far as a row may have it. Of an array with at most six items all are kept, of one
/// with texts alone the first 65; any other array, and an object, is `false`.
#[derive(Drop)]
pub struct Cut<'t> {
    /// What is kept of the value.
    pub value: Value<'t>,
    /// How many texts an array of texts has, and else those of its last item.
    pub texts: usize,
}

/// The items of an array so far.
#[derive(Drop)]
pub(crate) struct Kept<'t> {
    /// The first ones.
    pub first: Vec<Value<'t>>,
    /// How many there are.
    pub count: usize,
    /// All are texts.
    pub are_texts: bool,
    /// How many texts the last one has.
    pub texts: usize,
    /// A row may have an array that begins with them.
    pub fits: bool,
}

/// Reads the next value, with the arrays in it that nest at most `levels` deep.
///
/// Refused where there is none that nests at most `depth` deep (19), or since memory ran out (26).
#[cycle(cut)]
pub(crate) fn next_cut<'t>(
    alloc: Global,
    reader: &mut Reader<'t>,
    depth: usize,
    levels: usize,
) -> Result<Cut<'t>, DocCause>
    requires numbers { are_in_range reader.old ≡ true }
    requires places { length reader.old < 2 ^ 64 }
    requires deep { levels < depth }
    ensures read { MatchResult result
        (λ cut. (d : Data) × Reads depth reader.old d reader.new × IsCut levels d cut)
        (OrMemory NoMemory (ReadsNone depth reader.old)) }
    ensures left { OnOk result (are_in_range reader.new ≡ true) }
    ensures shorter { OnOk result (length reader.new < length reader.old) }
{
    let Some(token) = reader.next() else {
        return Err(DocCause::NotJson);
    };
    match token {
        Token::BeginArray => next_items(alloc, reader, depth - 1, levels),
        Token::BeginObject => match pass_members(reader, depth - 1) {
            Ok(()) => Ok(nothing()),
            Err(cause) => Err(cause),
        },
        _ => match scalar_of(token) {
            Some(value) => Ok(Cut { value, texts: 0 }),
            None => Err(DocCause::NotJson),
        },
    }
}

/// The same of an array whose opening bracket was read.
#[cycle(cut)]
fn next_items<'t>(
    alloc: Global,
    reader: &mut Reader<'t>,
    depth: usize,
    levels: usize,
) -> Result<Cut<'t>, DocCause>
    requires numbers { are_in_range reader.old ≡ true }
    requires places { length reader.old < 2 ^ 64 }
    requires deep { levels ≤ depth }
    ensures read { MatchResult result
        (λ cut. (ds : Items) × ReadsItems depth reader.old ds reader.new
        × IsCut levels (array ds) cut)
        (OrMemory NoMemory (λ e. (e ≡ NotJson) × ReadsNoItems depth reader.old)) }
    ensures left { OnOk result (are_in_range reader.new ≡ true) }
    ensures shorter { OnOk result (length reader.new < length reader.old) }
{
    let mut kept = none_kept(alloc, levels);
    while !reader.take_end_array() {
        match next_kept(alloc, reader, depth, levels, kept) {
            Ok(next) => kept = next,
            Err(cause) => return Err(cause),
        }
    }
    Ok(cut_of(kept))
}

/// Reads the next item of an array; no more is kept once no row may have the array.
#[cycle(cut)]
fn next_kept<'t>(
    alloc: Global,
    reader: &mut Reader<'t>,
    depth: usize,
    levels: usize,
    kept: Kept<'t>,
) -> Result<Kept<'t>, DocCause>
    requires numbers { are_in_range reader.old ≡ true }
    requires places { kept.count + length reader.old < 2 ^ 64 }
    requires deep { levels ≤ depth }
    requires held { (front : List Data) × Keeps levels front kept }
    ensures read { MatchResult result
        (λ next. (d : Data) × Reads depth reader.old d reader.new
        × (next.count ≤ kept.entry.count + 1)
        × ((front : List Data) → Keeps levels front kept.entry
        → Keeps levels (front ++ d ∷ []) next))
        (OrMemory NoMemory (ReadsNone depth reader.old)) }
    ensures left { OnOk result (are_in_range reader.new ≡ true) }
    ensures shorter { OnOk result (length reader.new < length reader.old) }
{
    if !kept.fits {
        return pass_kept(reader, depth, kept);
    }
    match next_cut(alloc, reader, depth, levels - 1) {
        Ok(item) => with_item(kept, item),
        Err(cause) => Err(cause),
    }
}

/// Skips the next item of an array, of which no more is kept.
fn pass_kept<'t>(
    reader: &mut Reader<'t>,
    depth: usize,
    kept: Kept<'t>,
) -> Result<Kept<'t>, DocCause>
    requires { are_in_range reader.old ≡ true }
    ensures read { MatchResult result
        (λ next. (d : Data) × Reads depth reader.old d reader.new × (next ≡ kept.entry))
        (ReadsNone depth reader.old) }
    ensures left { OnOk result (are_in_range reader.new ≡ true) }
    ensures shorter { OnOk result (length reader.new < length reader.old) }
{
    match reader.skip_value(depth) {
        Ok(()) => Ok(kept),
        Err(_) => Err(DocCause::NotJson),
    }
}

/// Skips the members of an object whose brace was read, or says that there is no such object (19).
pub(crate) fn pass_members(reader: &mut Reader<'_>, depth: usize) -> Result<(), DocCause>
    requires { are_in_range reader.old ≡ true }
    ensures read { MatchResult result
        (λ _. (ms : Members) × ReadsMembers depth reader.old ms reader.new)
        (λ e. (e ≡ NotJson) × ReadsNoMembers depth reader.old) }
    ensures left { OnOk result (are_in_range reader.new ≡ true) }
    ensures shorter { OnOk result (length reader.new < length reader.old) }
{
    while let Some(_) = next_name(reader)? {
        match reader.skip_value(depth) {
            Ok(()) => {}
            Err(_) => return Err(DocCause::NotJson),
        }
    }
    Ok(())
}

/// The refusal of a row that has as many texts, by that of what is kept of the row.
pub fn recounted(texts: usize, cause: DocCause) -> DocCause
    ensures { result ≡ recounted texts cause }
{
    match cause {
        DocCause::Field {
            row,
            fault: FieldFault::Cell(CellFault::LabelCount { .. }),
        } => DocCause::Field {
            row,
            fault: FieldFault::Cell(CellFault::LabelCount { count: texts }),
        },
        _ => cause,
    }
}

/// What is kept of a value that no row has.
fn nothing<'t>() -> Cut<'t>
    ensures { IsNothing result }
{
    Cut {
        value: Value::Bool(false),
        texts: 0,
    }
}

/// The value that a token is by itself, where it is one.
fn scalar_of<'t>(token: Token<'t>) -> Option<Value<'t>>
    ensures { option_map value_view result ≡ scalar_in (token_of token.entry) }
{
    match token {
        Token::String(text) => Some(Value::String(text)),
        Token::Number(text) => Some(Value::Number(text)),
        Token::Bool(holds) => Some(Value::Bool(holds)),
        Token::Null => Some(Value::Null),
        _ => None,
    }
}

/// No item of an array, which is kept where some nest.
fn none_kept<'t>(alloc: Global, levels: usize) -> Kept<'t>
    ensures keeps { Keeps levels [] result }
    ensures count { result.count ≡ 0 }
{
    Kept {
        first: Vec::new(alloc),
        count: 0,
        are_texts: true,
        texts: 0,
        fits: levels > 0,
    }
}

/// The items with one more.
fn with_item<'t>(kept: Kept<'t>, item: Cut<'t>) -> Result<Kept<'t>, DocCause>
    requires { kept.count + 1 < 2 ^ 64 }
    ensures { MatchResult result
        (λ next. (next.count ≤ kept.entry.count + 1)
        × ((levels : ℕ) (front : List Data) (d : Data) → KeepsItems levels front kept.entry
        → IsCut levels d item.entry → Keeps (suc levels) (front ++ d ∷ []) next))
        (λ e. e ≡ NoMemory) }
{
    let is_text = text_of(&item.value).is_some();
    if !has_room(kept.count, kept.are_texts, is_text) {
        return Ok(without_room(kept));
    }
    match with_value(kept.first, kept.count, item.value) {
        Ok(first) => Ok(Kept {
            first,
            count: kept.count + 1,
            are_texts: kept.are_texts && is_text,
            texts: item.texts,
            fits: true,
        }),
        Err(cause) => Err(cause),
    }
}

/// Whether a row may have an array of so many items and one more.
fn has_room(count: usize, are_texts: bool, is_text: bool) -> bool
    ensures { result ≡ has_room count are_texts is_text }
{
    count < MAX_ITEMS || (are_texts && is_text)
}

/// The items of an array that no row may have.
fn without_room<'t>(kept: Kept<'t>) -> Kept<'t>
    ensures fits { result.fits ≡ false }
    ensures count { result.count ≡ kept.entry.count }
{
    Kept {
        fits: false,
        ..kept
    }
}

/// The first items with one more, where it is one of the first.
fn with_value<'t>(
    mut first: Vec<Value<'t>>,
    count: usize,
    value: Value<'t>,
) -> Result<Vec<Value<'t>>, DocCause>
    ensures { MatchResult result
        (λ next. next.items
        ≡ (if nat_lt count 65 then first.entry.items ++ value.entry ∷ [] else first.entry.items))
        (λ e. e ≡ NoMemory) }
{
    if count < MAX_TEXTS {
        match first.push(value) {
            Ok(()) => {}
            Err(_) => return Err(DocCause::NoMemory),
        }
    }
    Ok(first)
}

/// The array of these items.
fn cut_of<'t>(kept: Kept<'t>) -> Cut<'t>
    ensures { (levels : ℕ) (ds : Items) → Keeps levels (list_of ds) kept.entry
        → IsCut levels (array ds) result }
{
    if !kept.fits {
        return nothing();
    }
    let texts = if kept.are_texts {
        kept.count
    } else {
        kept.texts
    };
    Cut {
        value: Value::Array(kept.first),
        texts,
    }
}
