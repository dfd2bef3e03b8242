//! The header of a document, tested, and its rows as they were taken.
ghost use Rattle.std.specs.Prelude.{◌≡◌, ◌<◌, ◌^◌, [], None, Some, true, length, MatchOption};
ghost use Rattle.std.specs.Prelude.{MatchResult};
ghost use Rattle.json.specs.Lex.{tokens};
ghost use Rattle.serde_json.specs.Data.{Data, Members, object};
ghost use Rattle.serde_json.specs.Find.{as_object};
ghost use Rattle.serde_json.specs.Read.{read};
ghost use Rattle.json_docs.specs.FaultChecks.{AreJson, OrMemory};
ghost use Rattle.json_docs.specs.inner.ObjectMembersRead.{IsNotWhole, ReadsMembers};
ghost use Rattle.json_docs.specs.Numbers.{are_in_range};
ghost use Rattle.json_docs.specs.declared.fault.DocCause.TheVariants.{NoMemory, NotJson};
ghost use Rattle.row_docs.specs.inner.HeaderSeen.{Shows};
ghost use Rattle.row_docs.specs.inner.HeaderTests.{FailsHeader, PassesHeader};
ghost use Rattle.row_docs.specs.TestedHeaders.{HasHeader, RefusesHeader};
ghost use Rattle.row_docs.specs.inner.TestedHeaders.{RefusesText};

use crate::arrays::Rows;
use crate::header::{Header, Subject, Wanted, read_members};
use crate::kind::Kind;
use crate::version::Version;
use json::{Reader, Scratch};
use json_docs::{DocCause, Spot, begins_object, check_numbers, check_value, text_in};
use std::alloc::Global;

/// The header of a document, and the first refusal of a row.
#[derive(Clone, Copy, Debug)]
pub struct TestedHeader {
    /// The version by which its rows were read.
    pub version: Version,
    /// What names a site, or says how many there are.
    pub subject: Subject,
    /// The first refusal of a row, if any.
    pub refusal: Option<DocCause>,
}

/// The tested header of a document of this kind, whose rows are taken by `rows`.
///
/// Refused where the bytes are not UTF-8 (18) or no JSON (19), then where the kind or the version
/// is not what it should be (20, 28), then where the members are not exactly those of the kind
/// (20); or when memory runs out (26). The first refusal of a row is returned, since the document
/// is refused for its own member first.
pub fn read_header<C, R: Rows<C>>(
    alloc: Global,
    bytes: &[u8],
    kind: Kind,
    start: &C,
    rows: &mut R,
) -> Result<TestedHeader, DocCause>
    ensures { MatchResult result
        (λ tested. (d : Data) × AreJson bytes.now d
        × HasHeader kind (R.Checks tested.version) (R.Holds start.now tested.version) d tested
        rows.new)
        (OrMemory NoMemory (RefusesHeader kind bytes.now)) }
{
    let text = text_in(bytes)?;
    let mut scratch = Scratch::new(alloc);
    check_numbers(text, &mut scratch)?;
    let wanted = Wanted {
        kind,
        version: Version::Two,
        start,
    };
    let tested = read_as(alloc, text, &mut scratch, &wanted, rows)?;
    match tested.version {
        Version::One => {
            let wanted = Wanted {
                version: Version::One,
                ..wanted
            };
            read_as(alloc, text, &mut scratch, &wanted, rows)
        }
        Version::Two => Ok(tested),
    }
}

/// The tested header of a text, whose rows are read as those of version 1 or of version 2.
fn read_as<C, R: Rows<C>>(
    alloc: Global,
    text: &str,
    scratch: &mut Scratch,
    wanted: &Wanted<'_, C>,
    rows: &mut R,
) -> Result<TestedHeader, DocCause>
    requires { are_in_range (tokens text.now) ≡ true }
    ensures { MatchResult result
        (λ tested. (d : Data) × (read text.now ≡ Some d)
        × HasHeader wanted.now.kind (R.Checks wanted.now.version)
        (R.Holds wanted.now.start.now wanted.now.version) d tested rows.new)
        (OrMemory NoMemory (RefusesText wanted.now.kind text.now)) }
{
    match read_object(alloc, text, scratch, wanted, rows)? {
        Some(header) => test_header(header),
        None => Err(DocCause::Shape {
            spot: Spot::Document,
        }),
    }
}

/// The members of a text, or none where it is no object.
fn read_object<C, R: Rows<C>>(
    alloc: Global,
    text: &str,
    scratch: &mut Scratch,
    wanted: &Wanted<'_, C>,
    rows: &mut R,
) -> Result<Option<Header>, DocCause>
    requires { are_in_range (tokens text.now) ≡ true }
    ensures { MatchResult result
        (λ header. MatchOption header ((d : Data) × (read text.now ≡ Some d) × (as_object d ≡ None))
        (λ h. (ms : Members) × (read text.now ≡ Some (object ms))
        × Shows wanted.now.kind (R.Checks wanted.now.version)
        (R.Holds wanted.now.start.now wanted.now.version) h rows.new ms))
        (OrMemory NoMemory (λ e. (e ≡ NotJson) × (read text.now ≡ None))) }
{
    let Ok(mut reader) = Reader::new(text, scratch) else {
        return Err(DocCause::NoMemory);
    };
    if begins_object(&mut reader) {
        let header = read_rest(alloc, &mut reader, wanted, rows)?;
        Ok(Some(header))
    } else {
        check_value(text, scratch)?;
        Ok(None)
    }
}

/// The members of the object whose brace was read, where nothing follows it.
fn read_rest<C, R: Rows<C>>(
    alloc: Global,
    reader: &mut Reader<'_>,
    wanted: &Wanted<'_, C>,
    rows: &mut R,
) -> Result<Header, DocCause>
    requires numbers { are_in_range reader.old ≡ true }
    requires places { length reader.old < 2 ^ 64 }
    ensures { MatchResult result
        (λ header. (ms : Members) × ReadsMembers 126 reader.old ms []
        × Shows wanted.now.kind (R.Checks wanted.now.version)
        (R.Holds wanted.now.start.now wanted.now.version) header rows.new ms)
        (OrMemory NoMemory (λ e. (e ≡ NotJson) × IsNotWhole reader.old)) }
{
    let header = read_members(alloc, reader, wanted, rows)?;
    match reader.next() {
        None => Ok(header),
        Some(_) => Err(DocCause::NotJson),
    }
}

/// The header, where it passes its tests.
fn test_header(header: Header) -> Result<TestedHeader, DocCause>
    ensures { MatchResult result (PassesHeader header) (FailsHeader header) }
{
    let Header {
        is_kind,
        version,
        subject,
        rows,
        has_other,
    } = header;
    let shape = DocCause::Shape {
        spot: Spot::Document,
    };
    if !is_kind {
        return Err(shape);
    }
    let Some(number) = version else {
        return Err(shape);
    };
    let Some(version) = Version::of_number(number) else {
        return Err(DocCause::VersionUnknown);
    };
    if has_other {
        return Err(shape);
    }
    let Some(subject) = subject else {
        return Err(shape);
    };
    let Some(refusal) = rows else {
        return Err(shape);
    };
    Ok(TestedHeader {
        version,
        subject,
        refusal,
    })
}
