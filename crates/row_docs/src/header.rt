//! The members of a document, each taken as it is read.
ghost use Rattle.std.specs.Prelude.{◌≡◌, ◌<◌, ◌^◌, ℕ, List, Some, None, Option, true, length};
ghost use Rattle.std.specs.Prelude.{MatchResult, OnOk};
ghost use Rattle.serde_json.specs.Data.{Data, Members, put};
ghost use Rattle.serde_json.specs.Find.{as_str};
ghost use Rattle.json_docs.specs.FaultChecks.{OrMemory};
ghost use Rattle.json_docs.specs.ObjectMembersRead.{is_scalar};
ghost use Rattle.json_docs.specs.inner.ObjectMembersRead.{ReadsMembers, ReadsNext, ReadsNoMembers};
ghost use Rattle.json_docs.specs.inner.ObjectMembersRead.{ReadsNone};
ghost use Rattle.json_docs.specs.Numbers.{are_in_range};
ghost use Rattle.json_docs.specs.ScanningReads.{seen};
ghost use Rattle.json_docs.specs.Parts.{items_in, u64_in};
ghost use Rattle.json_docs.specs.declared.fault.DocCause.TheVariants.{NoMemory, NotJson};
ghost use Rattle.row_docs.specs.inner.HeaderSeen.{Shows, ShowsRows, is_text};
ghost use Rattle.row_docs.specs.Headers.{IsSubject};
ghost use Rattle.row_docs.specs.Kinds.{kind_text, member_of};

use crate::arrays::{Rows, read_rows};
use crate::cuts::{next_cut, pass_members};
use crate::kind::{Kind, Member};
use crate::version::Version;
use cell_core::SiteName;
use json::{Reader, Token, Value};
use json_docs::{DocCause, MAX_DEPTH, is_scalar, next_name, text_of, u64_of};
use std::alloc::Global;

/// How deep a member of the outermost object nests at most.
const MEMBER_DEPTH: usize = MAX_DEPTH - 1;

/// What a document is about: the value of `site`, `to`, `owner` or `sites`.
#[derive(Clone, Copy, Debug)]
pub enum Subject {
    Name(SiteName),
    /// A text that is no site name.
    NoName,
    /// An unsigned whole number of 64 bits.
    Number(u64),
    Other,
}

/// What the reader of a document expects.
#[derive(Drop)]
pub(crate) struct Wanted<'s, C> {
    /// The kind of the document.
    pub kind: Kind,
    /// The version by which the rows are read.
    pub version: Version,
    /// What something is made of, with the rows.
    pub start: &'s C,
}

/// The header as far as it was read. Of two members with one name the last one counts.
#[derive(Clone, Copy, Debug)]
pub(crate) struct Header {
    /// The kind is the wanted one.
    pub is_kind: bool,
    /// The version, where its member is a whole number of 64 bits.
    pub version: Option<u64>,
    /// The subject, where there is a member for it.
    pub subject: Option<Subject>,
    /// The first refusal of a row, if any, where there is an array of rows.
    pub rows: Option<Option<DocCause>>,
    /// There is a member of another name.
    pub has_other: bool,
}

/// Reads the members of an object whose brace was read.
pub(crate) fn read_members<C, R: Rows<C>>(
    alloc: Global,
    reader: &mut Reader<'_>,
    wanted: &Wanted<'_, C>,
    rows: &mut R,
) -> Result<Header, DocCause>
    requires numbers { are_in_range reader.old ≡ true }
    requires places { length reader.old < 2 ^ 64 }
    ensures { MatchResult result
        (λ header. (ms : Members) × ReadsMembers 126 reader.old ms reader.new
        × Shows wanted.now.kind (R.Checks wanted.now.version)
        (R.Holds wanted.now.start.now wanted.now.version) header rows.new ms)
        (OrMemory NoMemory (λ e. (e ≡ NotJson) × ReadsNoMembers 126 reader.old)) }
{
    let mut header = Header {
        is_kind: false,
        version: None,
        subject: None,
        rows: None,
        has_other: false,
    };
    while let Some(name) = next_name(reader)? {
        let member = wanted.kind.member(name);
        header = read_member(alloc, reader, wanted, member, header, rows)?;
    }
    Ok(header)
}

/// Reads the value of a member, whose name was read.
fn read_member<C, R: Rows<C>>(
    alloc: Global,
    reader: &mut Reader<'_>,
    wanted: &Wanted<'_, C>,
    member: Member,
    header: Header,
    rows: &mut R,
) -> Result<Header, DocCause>
    requires numbers { are_in_range reader.old ≡ true }
    requires places { length reader.old < 2 ^ 64 }
    ensures { MatchResult result
        (λ next. (d : Data) × ReadsNext reader.old d reader.new
        × ((name : List ℕ) (ms : Members) → member_of wanted.now.kind name ≡ member
        → Shows wanted.now.kind (R.Checks wanted.now.version)
        (R.Holds wanted.now.start.now wanted.now.version) header rows.old ms
        → Shows wanted.now.kind (R.Checks wanted.now.version)
        (R.Holds wanted.now.start.now wanted.now.version) next rows.new (put name d ms)))
        (OrMemory NoMemory (ReadsNone 126 reader.old)) }
{
    match member {
        Member::Kind => read_kind(alloc, reader, wanted.kind, header),
        Member::Version => read_version(alloc, reader, header),
        Member::Subject => read_subject(alloc, reader, header),
        Member::Rows => read_array(alloc, reader, wanted, header, rows),
        Member::Other => pass_over(reader, header),
    }
}

/// Reads the member `kind`.
fn read_kind(
    alloc: Global,
    reader: &mut Reader<'_>,
    kind: Kind,
    header: Header,
) -> Result<Header, DocCause>
    requires numbers { are_in_range reader.old ≡ true }
    requires places { length reader.old < 2 ^ 64 }
    ensures { MatchResult result
        (λ next. (d : Data) × ReadsNext reader.old d reader.new
        × (next ≡ record header { is_kind = is_text (kind_text kind) (as_str d) }))
        (OrMemory NoMemory (ReadsNone 126 reader.old)) }
{
    let kept = next_cut(alloc, reader, MEMBER_DEPTH, 0)?;
    Ok(Header {
        is_kind: is_kind(kind, &kept.value),
        ..header
    })
}

/// Reads the member `version`.
fn read_version(alloc: Global, reader: &mut Reader<'_>, header: Header) -> Result<Header, DocCause>
    requires numbers { are_in_range reader.old ≡ true }
    requires places { length reader.old < 2 ^ 64 }
    ensures { MatchResult result
        (λ next. (d : Data) × ReadsNext reader.old d reader.new
        × (next ≡ record header { version = u64_in d }))
        (OrMemory NoMemory (ReadsNone 126 reader.old)) }
{
    let version = next_cut(alloc, reader, MEMBER_DEPTH, 0)?;
    Ok(Header {
        version: u64_of(&version.value),
        ..header
    })
}

/// Reads the member of the subject.
fn read_subject(alloc: Global, reader: &mut Reader<'_>, header: Header) -> Result<Header, DocCause>
    requires numbers { are_in_range reader.old ≡ true }
    requires places { length reader.old < 2 ^ 64 }
    ensures { MatchResult result
        (λ next. (d : Data) × ReadsNext reader.old d reader.new
        × ((subject : Subject) × IsSubject subject d
        × (next ≡ record header { subject = Some subject })))
        (OrMemory NoMemory (ReadsNone 126 reader.old)) }
{
    let subject = next_cut(alloc, reader, MEMBER_DEPTH, 0)?;
    Ok(Header {
        subject: Some(subject_of(&subject.value)),
        ..header
    })
}

/// Reads the rows, where the member is an array.
fn read_array<C, R: Rows<C>>(
    alloc: Global,
    reader: &mut Reader<'_>,
    wanted: &Wanted<'_, C>,
    header: Header,
    rows: &mut R,
) -> Result<Header, DocCause>
    requires numbers { are_in_range reader.old ≡ true }
    requires places { length reader.old < 2 ^ 64 }
    ensures { MatchResult result
        (λ next. (d : Data) × ReadsNext reader.old d reader.new
        × ((read : Option (Option DocCause))
        × ShowsRows (R.Checks wanted.now.version)
        (R.Holds wanted.now.start.now wanted.now.version) read rows.new (items_in d)
        × (next ≡ record header { rows = read })))
        (OrMemory NoMemory (ReadsNone 126 reader.old)) }
{
    let Some(token) = reader.next() else {
        return Err(DocCause::NotJson);
    };
    match token {
        Token::BeginArray => {
            let depth = MEMBER_DEPTH - 1;
            let refusal = read_rows(alloc, reader, depth, wanted.version, wanted.start, rows)?;
            Ok(Header {
                rows: Some(refusal),
                ..header
            })
        }
        Token::BeginObject => {
            pass_members(reader, MEMBER_DEPTH - 1)?;
            Ok(Header {
                rows: None,
                ..header
            })
        }
        _ => {
            if !is_scalar(token) {
                return Err(DocCause::NotJson);
            }
            Ok(Header {
                rows: None,
                ..header
            })
        }
    }
}

/// Skips the value of a member of another name.
fn pass_over(reader: &mut Reader<'_>, header: Header) -> Result<Header, DocCause>
    requires { are_in_range reader.old ≡ true }
    ensures { MatchResult result
        (λ next. (d : Data) × ReadsNext reader.old d reader.new
        × (next ≡ record header { has_other = true }))
        (OrMemory NoMemory (ReadsNone 126 reader.old)) }
{
    match reader.skip_value(MEMBER_DEPTH) {
        Ok(()) => Ok(Header {
            has_other: true,
            ..header
        }),
        Err(_) => Err(DocCause::NotJson),
    }
}

/// Whether the text is the wanted kind.
fn is_kind(kind: Kind, value: &Value<'_>) -> bool
    ensures { result ≡ is_text (kind_text kind) (as_str (seen value.now)) }
{
    match text_of(value) {
        Some(text) => text == kind.text(),
        None => false,
    }
}

/// What a value names as the subject.
fn subject_of(value: &Value<'_>) -> Subject
    ensures { IsSubject result (seen value.now) }
{
    if let Some(text) = text_of(value) {
        return name_of(text);
    }
    match u64_of(value) {
        Some(number) => Subject::Number(number),
        None => Subject::Other,
    }
}

/// The name that a text is, where it is one.
fn name_of(text: &str) -> Subject
    ensures { (d : Data) → as_str d ≡ Some text.now → IsSubject result d }
{
    match SiteName::new(text) {
        Ok(name) => Subject::Name(name),
        Err(_) => Subject::NoName,
    }
}
