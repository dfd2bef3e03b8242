//! What a refusal says beside its text: where, and what was wanted.
use lang_core::{Lang, LangFault, Range, Tag};
use std::alloc::Global;

/// The fault of a text that is no tag.
fn tag_fault(alloc: Global, text: &[u8]) -> Option<LangFault> {
    Tag::parse(alloc, text).err()
}

/// Offsets count from the first byte; the subtag after a last hyphen begins at the length.
#[test]
fn offsets_of_tags(rt: HostRuntime) {
    let alloc = rt.alloc();
    let rows: [(&[u8], Option<usize>); 6] = [
        (b"fr_CA", Some(0)),
        (b"en--us", Some(3)),
        (b"en-", Some(3)),
        (b"de-abcdefghi", Some(3)),
        (b"", None),
        (b"de-a", None),
    ];
    for (text, offset) in rows.iter() {
        let found = tag_fault(alloc, text).map(|fault| fault.offset());
        assert_eq!(rt; found, Some(*offset));
    }
    let none = Lang::parse(alloc, b"@NONE").err();
    assert_eq!(rt; none.map(|fault| fault.offset()), Some(Some(0)));
}

#[test]
fn offsets_of_ranges(rt: HostRuntime) {
    let alloc = rt.alloc();
    let basic = Range::parse_basic(alloc, b"de-*").err();
    assert_eq!(rt; basic.map(|fault| fault.offset()), Some(Some(3)));
    let extended = Range::parse_extended(alloc, b"*-").err();
    assert_eq!(rt; extended.map(|fault| fault.offset()), Some(Some(2)));
    let empty = Range::parse_extended(alloc, b"").err();
    assert_eq!(rt; empty.map(|fault| fault.offset()), Some(None));
    assert_eq!(rt; LangFault::NoMemory.offset(), None);
}

/// What docs/REFUSALS.md gives as cause is what the sentence excludes.
#[test]
fn meanings(rt: HostRuntime) {
    let faults = [
        (LangFault::TagEmpty, "a tag has at least one byte"),
        (LangFault::TagTooLong, "a tag has at most 255 bytes"),
        (
            LangFault::TagSubtag { offset: 3 },
            "each subtag is 1 to 8 letters or digits, with a hyphen between two",
        ),
        (
            LangFault::TagNotWellFormed,
            "a language comes first, then script, region, variants, extensions, private use",
        ),
        (LangFault::RangeEmpty, "a range has at least one byte"),
        (LangFault::RangeTooLong, "a range has at most 255 bytes"),
        (
            LangFault::RangeSubtag { offset: 3 },
            "each subtag is * or 1 to 8 letters, after the first also digits; \
             in a basic range * is alone",
        ),
        (LangFault::NoMemory, "there is memory for the text"),
    ];
    for (fault, meaning) in faults.iter() {
        assert_eq!(rt; fault.meaning(), *meaning);
    }
}
