//! Sites that are edited while shares of them are open.

use cata_core::CataFault;
use cell_core::{SiteName, Stamp};
use docs_core::{
    Checks, Doc, OwnEdits, import_document, sync_documents, take_document, update_document,
};
use front_core::{Change, FrontFault, OpenSite, Question, SiteIn, View};
use std::alloc::Global;
use std::process::Abort;
use std::test::Fail;

const SITE: &[u8] = b"{\"cells\":[[\"m\",\"en\",5,\"paris\",0,[\"Hello\"]]],\
    \"kind\":\"site\",\"site\":\"paris\",\"version\":2}\n";

const WITH_FR: &[u8] = b"{\"cells\":[[\"m\",\"en\",5,\"paris\",0,[\"Hello\"]],\
    [\"m\",\"fr\",6,\"paris\",0,[\"Bonjour\"]]],\
    \"kind\":\"site\",\"site\":\"paris\",\"version\":2}\n";

const WITHOUT_EN: &[u8] = b"{\"cells\":[[\"m\",\"en\",7,\"paris\",0,null],\
    [\"m\",\"fr\",6,\"paris\",0,[\"Bonjour\"]]],\
    \"kind\":\"site\",\"site\":\"paris\",\"version\":2}\n";

const OTHER: &[u8] = b"{\"cells\":[[\"m\",\"en\",9,\"tokyo\",0,[\"Hi\"]],\
    [\"n\",\"ja\",14,\"tokyo\",0,[\"x\"]]],\"kind\":\"site\",\"site\":\"tokyo\",\"version\":2}\n";

const DELTA: &[u8] = b"{\"cells\":[[\"m\",\"en\",12,\"tokyo\",0,[\"Ho\"]],\
    [\"n\",\"de\",2,\"tokyo\",0,[\"y\"]]],\"kind\":\"delta\",\"to\":\"paris\",\"version\":2}\n";

/// The edit is refused with this fault.
fn assert_refused(rt: &impl Abort, edit: Result<(), FrontFault>, fault: CataFault) {
    assert_eq!(rt; edit, Err(FrontFault::from(fault)));
}

/// The document of the site is this.
fn assert_site(rt: &impl Abort, alloc: Global, open: &OpenSite, document: &[u8]) {
    match View::Document.answer(alloc, SiteIn::Open(open.site())) {
        Ok(answer) => assert_eq!(rt; answer.text.bytes(), document),
        Err(fault) => panic!(rt; "{fault}"),
    }
}

#[test]
fn three_generations(rt: HostRuntime) -> Result<(), Fail> {
    let alloc = rt.alloc();
    let mut open = OpenSite::read(alloc, SITE)?;
    let first = open.share()?;
    open.put(alloc, 6, b"m", b"fr", b"Bonjour")?;
    let second = open.share()?;
    assert_site(&rt, alloc, &first, SITE);
    drop(first);
    open.delete(alloc, 7, b"m", b"en")?;
    let third = open.share()?;
    assert_site(&rt, alloc, &second, WITH_FR);
    open.put(alloc, 8, b"m", b"en", b"Hi")?;
    assert_site(&rt, alloc, &second, WITH_FR);
    assert_site(&rt, alloc, &third, WITHOUT_EN);
    drop(second);
    drop(open);
    assert_site(&rt, alloc, &third, WITHOUT_EN);
    Ok(())
}

/// One of six edits of the site at the time `now`, and the document of a site after the same edit.
fn edited(
    alloc: Global,
    open: &mut OpenSite,
    document: &[u8],
    step: u64,
    now: u64,
) -> Result<Doc, FrontFault> {
    let lang: &[u8] = if step < 8 { b"fr" } else { b"ja" };
    let (old, new) = (
        br#"{"m":{"en":"Hello","fr":"a"}}"#,
        br#"{"m":{"en":"Hello"},"n":{"en":"b"}}"#,
    );
    let document = match step % 6 {
        0 => {
            open.put(alloc, now, b"m", lang, b"put")?;
            Change::put(alloc, b"m", lang, b"put")?.make_in_document(alloc, document, now)?
        }
        1 => {
            open.import(alloc, now, new)?;
            import_document(alloc, document, now, new)?
        }
        2 => {
            open.merge(alloc, OpenSite::read(alloc, OTHER)?.site(), Checks::none())?;
            sync_documents(alloc, document, OTHER, Checks::none())?.0
        }
        3 => {
            open.delete(alloc, now, b"n", b"en")?;
            Change::delete(alloc, b"n", b"en")?.make_in_document(alloc, document, now)?
        }
        4 => {
            open.take(alloc, DELTA, Checks::none())?;
            take_document(alloc, document, DELTA, Checks::none())?
        }
        _ => {
            open.update(alloc, now, old, new)?;
            update_document(alloc, document, now, old, new)?
        }
    };
    Ok(document)
}

/// A site that is edited has the document of a site after the same edits, and a share of it from
/// before an edit shows none. It is shared for the steps whose bit is set.
fn assert_edits(
    rt: &impl Abort,
    alloc: Global,
    mut open: OpenSite,
    shared: u32,
) -> Result<(), FrontFault> {
    let mut document = View::Document.answer(alloc, SiteIn::Document(SITE))?.text;
    for step in 0..18u64 {
        let share = if shared >> step & 1 == 1 {
            Some(open.share()?)
        } else {
            None
        };
        let after = edited(alloc, &mut open, document.bytes(), step, 10 + step)?;
        if let Some(share) = share {
            assert_site(rt, alloc, &share, document.bytes());
        }
        assert_site(rt, alloc, &open, after.bytes());
        document = after;
    }
    Ok(())
}

#[test]
fn edits_of_a_shared_site(rt: HostRuntime) -> Result<(), Fail> {
    let alloc = rt.alloc();
    // (by the last two in place for some steps, with a spare)
    for shared in [
        0,
        0x3ffff,
        0b100_000_010_001_000_011,
        0b010_110_000_100_100_100,
    ] {
        assert_edits(&rt, alloc, OpenSite::read(alloc, SITE)?, shared)?;
    }
    Ok(())
}

const SPENT: &[u8] =
    b"{\"cells\":[[\"m\",\"en\",18446744073709551615,\"paris\",4294967293,[\"x\"]]],\
    \"kind\":\"site\",\"site\":\"paris\",\"version\":2}\n";

const SPENT_BY_ONE: &[u8] = b"{\"cells\":[\
    [\"m\",\"en\",18446744073709551615,\"paris\",4294967294,[\"y\"]]],\
    \"kind\":\"site\",\"site\":\"paris\",\"version\":2}\n";

const SPENT_BY_TWO: &[u8] = b"{\"cells\":[\
    [\"m\",\"en\",18446744073709551615,\"paris\",4294967294,[\"y\"]],\
    [\"m\",\"fr\",18446744073709551615,\"paris\",4294967295,[\"z\"]]],\
    \"kind\":\"site\",\"site\":\"paris\",\"version\":2}\n";

/// An import whose second label is refused, after an import that left a spare.
#[test]
fn an_import_that_is_refused_midway(rt: HostRuntime) -> Result<(), Fail> {
    let alloc = rt.alloc();
    let mut open = OpenSite::read(alloc, SPENT)?;
    open.import(alloc, 1, br#"{"m":{"en":"y"}}"#)?;
    assert_site(&rt, alloc, &open, SPENT_BY_ONE);
    let refused = open.import(alloc, 1, br#"{"m":{"de":"z","fr":"z"}}"#);
    assert_refused(&rt, refused, CataFault::ClockSpent);
    assert_site(&rt, alloc, &open, SPENT_BY_ONE);
    open.import(alloc, 1, br#"{"m":{"fr":"z"}}"#)?;
    assert_site(&rt, alloc, &open, SPENT_BY_TWO);
    Ok(())
}

const CLASH: &[u8] = b"{\"cells\":[[\"m\",\"fr\",6,\"paris\",0,[\"other\"]]],\
    \"kind\":\"site\",\"site\":\"paris\",\"version\":2}\n";

/// A merge of what does not pass the checks: a time after the limit, or else an edit of the site
/// itself that it lacks, in row 1 of the other site.
#[test]
fn a_merge_that_does_not_pass(rt: HostRuntime) -> Result<(), Fail> {
    let alloc = rt.alloc();
    let later = OpenSite::read(alloc, WITH_FR)?;
    let mut open = OpenSite::read(alloc, SITE)?;
    let share = open.share()?;
    assert_row_1(&rt, open.merge(alloc, later.site(), checked(Some(5))), 29);
    assert_row_1(&rt, open.merge(alloc, later.site(), checked(Some(6))), 30);
    assert_row_1(&rt, open.merge(alloc, later.site(), checked(None)), 30);
    assert_site(&rt, alloc, &share, SITE);
    assert_site(&rt, alloc, &open, SITE);
    open.merge(alloc, later.site(), Checks::none())?;
    assert_site(&rt, alloc, &open, WITH_FR);
    assert_site(&rt, alloc, &share, SITE);
    Ok(())
}

/// Checks with this limit that look for the site's own edits.
fn checked(not_after: Option<u64>) -> Checks {
    Checks {
        not_after,
        own_edits: OwnEdits::Checked,
    }
}

/// The edit is refused by this number, for row 1 of document 1.
fn assert_row_1(rt: &impl Abort, edit: Result<(), FrontFault>, number: u8) {
    let Err(fault) = edit else {
        return assert_eq!(rt; 0, number);
    };
    assert_eq!(rt; fault.number(), number);
    assert_eq!(rt; fault.row(), Some(1));
    assert_eq!(rt; fault.document(), 1);
}

/// A merge that is refused, into a copy and into the spare.
#[test]
fn a_merge_that_is_refused(rt: HostRuntime) -> Result<(), Fail> {
    let alloc = rt.alloc();
    let clash = OpenSite::read(alloc, CLASH)?;
    let mut open = OpenSite::read(alloc, WITH_FR)?;
    let stamp = Stamp {
        time: 6,
        site: SiteName::new("paris")?,
        count: 0,
    };
    for _ in 0..2 {
        let share = open.share()?;
        let refused = open.merge(alloc, clash.site(), Checks::none());
        assert_refused(&rt, refused, CataFault::StampReused { place: 1, stamp });
        assert_site(&rt, alloc, &share, WITH_FR);
        assert_site(&rt, alloc, &open, WITH_FR);
    }
    let share = open.share()?;
    open.delete(alloc, 7, b"m", b"en")?;
    assert_site(&rt, alloc, &share, WITH_FR);
    assert_site(&rt, alloc, &open, WITHOUT_EN);
    Ok(())
}
