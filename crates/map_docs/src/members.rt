//! The rows of a language-map document, read off its text.
ghost use Rattle.std.specs.Prelude.{◌≡◌, ◌<◌, ◌∷◌, ◌++◌, [], ℕ, Option, None, Some, true, length};
ghost use Rattle.std.specs.Prelude.{map, MatchResult, IfOk, IfSome, OnOk, string_bytes};
ghost use Rattle.std.specs.List.{filter_map};
ghost use Rattle.json.specs.Lex.{tokens};
ghost use Rattle.json.specs.Value.{value_view};
ghost use Rattle.serde_json.specs.Data.{Data, Items, Members};
ghost use Rattle.serde_json.specs.Find.{as_str};
ghost use Rattle.serde_json.specs.Read.{read};
ghost use Rattle.json_docs.specs.inner.ScanningArrays.{ReadsItems, ReadsNoItems};
ghost use Rattle.json_docs.specs.FaultChecks.{OrMemory};
ghost use Rattle.json_docs.specs.inner.ObjectMembersRead.{IsNotWhole, ReadsMembers, ReadsNoMembers};
ghost use Rattle.json_docs.specs.inner.ObjectMembersRead.{ReadsNone};
ghost use Rattle.json_docs.specs.Numbers.{are_in_range};
ghost use Rattle.json_docs.specs.ScanningReads.{AreRead, IsRead, Reads, seen};
ghost use Rattle.json_docs.specs.declared.fault.DocCause.TheVariants.{NoMemory, NotJson};
ghost use Rattle.map_docs.specs.MembersRows.{Keys as PlainKeys, Strings as PlainStrings};
ghost use Rattle.map_docs.specs.MembersRows.{is_string_or_null, keys_in, members_by};
ghost use Rattle.map_docs.specs.MembersRows.{message_rows, message_rows_in, strings_in, strings_of};
ghost use Rattle.map_docs.specs.inner.MembersRowsSeen.{AreSorted, keys_in_seen, members_seen};
ghost use Rattle.map_docs.specs.inner.MembersRowsSeen.{rows_in_seen, rows_seen, strings_seen};

use crate::ascending_map::AscendingMap;
use crate::rows::{Keys, Rows, Strings};
use json::{Reader, Scratch, Token, Value};
use json_docs::{
    DocCause, MAX_DEPTH, begins_object, check_value, is_scalar, items_of, next_name, next_value,
    text_of,
};
use std::alloc::{AllocError, Global};

/// How deep the value of a key nests at most.
const KEY_DEPTH: usize = MAX_DEPTH - 2;

/// The rows of the document in byte order of their names, or none where it is no object. Of two
/// members of one name the last counts.
pub(crate) fn read_rows(
    alloc: Global,
    text: &str,
    scratch: &mut Scratch,
) -> Result<Option<Rows>, DocCause>
    requires { are_in_range (tokens text.now) ≡ true }
    ensures read { MatchResult result
        (λ rows. (d : Data) × (read text.now ≡ Some d) × (rows_in_seen rows ≡ message_rows_in d))
        (OrMemory NoMemory (λ e. (e ≡ NotJson) × (read text.now ≡ None))) }
    ensures sorted { IfOk result (λ rows. IfSome rows (λ r. AreSorted r.items)) }
{
    let mut reader = Reader::new(text, scratch)?;
    if begins_object(&mut reader) {
        let rows = read_rest(alloc, &mut reader)?;
        Ok(Some(rows))
    } else {
        check_value(text, scratch)?;
        Ok(None)
    }
}

/// The rows of the object whose brace was read, where nothing follows it.
fn read_rest(alloc: Global, reader: &mut Reader<'_>) -> Result<Rows, DocCause>
    requires { are_in_range reader.old ≡ true }
    ensures read { MatchResult result
        (λ rows. (ms : Members) × ReadsMembers 126 reader.old ms []
        × (rows_seen rows.items ≡ message_rows ms))
        (OrMemory NoMemory (λ e. (e ≡ NotJson) × IsNotWhole reader.old)) }
    ensures sorted { IfOk result (λ rows. AreSorted rows.items) }
{
    let rows = read_members(alloc, reader)?;
    match reader.next() {
        None => Ok(rows),
        Some(_) => Err(DocCause::NotJson),
    }
}

/// The values of an object's members.
trait MemberValue: Sized {
    /// What a contract sees of it.
    ghost Plain: { Type 0 };

    ghost seen_of: { Self → Plain };

    /// What it is of a value.
    ghost in_data: { Data → Plain };

    /// How deep it nests at most.
    ghost most_depth: { ℕ };

    /// Reads the next value.
    fn read(alloc: Global, reader: &mut Reader<'_>) -> Result<Self, DocCause>
        requires { are_in_range reader.old ≡ true }
        ensures read { MatchResult result
            (λ found. (d : Data) × Reads most_depth reader.old d reader.new
            × (seen_of found ≡ in_data d))
            (OrMemory NoMemory (ReadsNone most_depth reader.old)) }
        ensures left { OnOk result (are_in_range reader.new ≡ true) }
        ensures shorter { OnOk result (length reader.new < length reader.old) };
}

/// Reads the members of an object whose brace was read, in byte order of their names. They are a
/// list while the names ascend, as in what is exported; the first that does not has a tree made.
fn read_members<V: MemberValue + Drop>(
    alloc: Global,
    reader: &mut Reader<'_>,
) -> Result<Vec<(String, V)>, DocCause>
    requires { are_in_range reader.old ≡ true }
    ensures read { MatchResult result
        (λ found. (ms : Members) × ReadsMembers V.most_depth reader.old ms reader.new
        × (members_seen V.seen_of found.items ≡ members_by V.in_data ms))
        (OrMemory NoMemory (λ e. (e ≡ NotJson) × ReadsNoMembers V.most_depth reader.old)) }
    ensures sorted { IfOk result (λ found. AreSorted found.items) }
    ensures left { OnOk result (are_in_range reader.new ≡ true) }
    ensures shorter { OnOk result (length reader.new < length reader.old) }
{
    let mut found = AscendingMap::new(alloc);
    while let Some(name) = next_name(reader)? {
        let value = V::read(alloc, reader)?;
        let name = String::from_str(alloc, name)?;
        found = found.with(alloc, name, value)?;
    }
    let members = found.into_entries(alloc)?;
    Ok(members)
}

impl MemberValue for Option<Keys> {
    ghost Plain = { Option PlainKeys };

    ghost seen_of = { keys_in_seen };

    ghost in_data = { keys_in };

    ghost most_depth = { 126 };

    fn read(alloc: Global, reader: &mut Reader<'_>) -> Result<Option<Keys>, DocCause> {
        read_keys(alloc, reader)
    }
}

impl MemberValue for Strings {
    ghost Plain = { PlainStrings };

    ghost seen_of = { strings_seen };

    ghost in_data = { strings_in };

    ghost most_depth = { 125 };

    fn read(alloc: Global, reader: &mut Reader<'_>) -> Result<Strings, DocCause> {
        let value = next_value(alloc, reader, KEY_DEPTH)?;
        Ok(strings_of(alloc, &value)?)
    }
}

/// Reads the value of a row: the keys of an object. What is no object is skipped.
fn read_keys(alloc: Global, reader: &mut Reader<'_>) -> Result<Option<Keys>, DocCause>
    requires { are_in_range reader.old ≡ true }
    ensures read { MatchResult result
        (λ keys. (d : Data) × Reads 126 reader.old d reader.new × (keys_in_seen keys ≡ keys_in d))
        (OrMemory NoMemory (ReadsNone 126 reader.old)) }
    ensures left { OnOk result (are_in_range reader.new ≡ true) }
    ensures shorter { OnOk result (length reader.new < length reader.old) }
{
    let Some(token) = reader.next() else {
        return Err(DocCause::NotJson);
    };
    match token {
        Token::BeginObject => {
            let keys = read_members(alloc, reader)?;
            Ok(Some(keys))
        }
        Token::BeginArray => {
            pass_items(reader)?;
            Ok(None)
        }
        _ => {
            if !is_scalar(token) {
                return Err(DocCause::NotJson);
            }
            Ok(None)
        }
    }
}

/// Skips the items of an array whose opening bracket was read.
fn pass_items(reader: &mut Reader<'_>) -> Result<(), DocCause>
    requires { are_in_range reader.old ≡ true }
    ensures read { MatchResult result
        (λ _. (ds : Items) × ReadsItems 125 reader.old ds reader.new)
        (λ e. (e ≡ NotJson) × ReadsNoItems 125 reader.old) }
    ensures left { OnOk result (are_in_range reader.new ≡ true) }
    ensures shorter { OnOk result (length reader.new < length reader.old) }
{
    while !reader.take_end_array() {
        match reader.skip_value(KEY_DEPTH) {
            Ok(()) => {}
            Err(_) => return Err(DocCause::NotJson),
        }
    }
    Ok(())
}

/// The strings of a value: a string, null, or an array of strings and nulls.
fn strings_of(alloc: Global, value: &Value<'_>) -> Result<Strings, AllocError>
    requires { IsRead (value_view value.now) }
    ensures { IfOk result (λ strings. strings_seen strings ≡ strings_in (seen value.now)) }
{
    if value.is_null() {
        return Ok(Some(Vec::new(alloc)));
    }
    if let Some(text) = text_of(value) {
        return Ok(Some(one_string(alloc, text)?));
    }
    match items_of(value) {
        Some(items) => strings_of_items(alloc, items),
        None => Ok(None),
    }
}

/// The text alone, with room for no other: so the label that is made of it holds it in place.
fn one_string(alloc: Global, text: &str) -> Result<Vec<String>, AllocError>
    ensures { IfOk result (λ strings. map string_bytes strings.items ≡ text.now ∷ []) }
{
    let mut strings = Vec::with_capacity(alloc, 1)?;
    strings.push(String::from_str(alloc, text)?)?;
    Ok(strings)
}

/// The strings of an array without its nulls, where it has nothing else.
fn strings_of_items(alloc: Global, items: &[Value<'_>]) -> Result<Strings, AllocError>
    requires { AreRead items.now }
    ensures { IfOk result (λ strings. strings_seen strings ≡ strings_of (map seen items.now)) }
{
    let mut strings = Vec::new(alloc);
    for item in items {
        if !add_string(alloc, &mut strings, item)? {
            return Ok(None);
        }
    }
    Ok(Some(strings))
}

/// Adds the text of an item, where it is one, and says whether it is a string or null.
fn add_string(
    alloc: Global,
    strings: &mut Vec<String>,
    item: &Value<'_>,
) -> Result<bool, AllocError>
    requires { IsRead (value_view item.now) }
    ensures fits { IfOk result (λ fits. fits ≡ is_string_or_null (seen item.now)) }
    ensures strings { OnOk result
        (map string_bytes strings.new.items
        ≡ map string_bytes strings.old.items ++ filter_map as_str (seen item.now ∷ [])) }
{
    match text_of(item) {
        Some(text) => {
            strings.push(String::from_str(alloc, text)?)?;
            Ok(true)
        }
        None => Ok(item.is_null()),
    }
}
