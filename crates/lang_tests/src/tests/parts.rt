//! The parts of tags.
use lang_core::{LangFault, Subtags, Tag};
use std::alloc::{AllocError, Global};
use std::test::Fail;

/// The examples of RFC 5646 appendix A as rows of `TAG|LANGUAGE|EXTLANGS|SCRIPT|REGION|VARIANTS`,
/// by the headings that they stand under there.
const EXAMPLES: &str = "de|de||||\nfr|fr||||\nja|ja||||\ni-enochian|||||
zh-Hant|zh||hant||\nzh-Hans|zh||hans||\nsr-Cyrl|sr||cyrl||\nsr-Latn|sr||latn||
zh-cmn-Hans-CN|zh|cmn|hans|cn|\ncmn-Hans-CN|cmn||hans|cn|\nzh-yue-HK|zh|yue||hk|\nyue-HK|yue|||hk|
zh-Hans-CN|zh||hans|cn|\nsr-Latn-RS|sr||latn|rs|
sl-rozaj|sl||||rozaj\nsl-rozaj-biske|sl||||rozaj biske\nsl-nedis|sl||||nedis
de-CH-1901|de|||ch|1901\nsl-IT-nedis|sl|||it|nedis
hy-Latn-IT-arevela|hy||latn|it|arevela
de-DE|de|||de|\nen-US|en|||us|\nes-419|es|||419|
de-CH-x-phonebk|de|||ch|\naz-Arab-x-AZE-derbend|az||arab||
x-whatever|||||\nqaa-Qaaa-QM-x-southern|qaa||qaaa|qm|\nde-Qaaa|de||qaaa||
sr-Latn-QM|sr||latn|qm|\nsr-Qaaa-RS|sr||qaaa|rs|
en-US-u-islamcal|en|||us|\nzh-CN-a-myext-x-private|zh|||cn|\nen-a-myext-b-another|en||||";

/// The same of other tags: the regular grandfathered ones, which have parts by the grammar, some of
/// the irregular ones, which have none, and tags whose later subtags look like earlier parts.
const OTHERS: &str = "art-lojban|art||||lojban\nzh-min-nan|zh|min nan|||\nno-bok|no|bok|||
zh-guoyu|zh||||guoyu\nen-GB-oed|||||\nsgn-BE-FR|||||\ni-default|||||
zh-abc-def-ghi-Latn-CN-1996-a-bb-x-1|zh|abc def ghi|latn|cn|1996
de-1901-1996|de||||1901 1996\nabcd|abcd||||\nabcdefgh-Latn|abcdefgh||latn||
en-a-Latn-US-nedis|en||||\nen-x-Latn-US-nedis|en||||\nx-en-Latn-US|||||\nen-419-1abc|en|||419|1abc";

/// The subtags, with a blank between two.
fn listed(alloc: Global, subtags: Subtags<'_>) -> Result<String, AllocError> {
    let mut list = String::new(alloc);
    for subtag in subtags {
        if !list.is_empty() {
            list.push_str(" ")?;
        }
        list.push_str(subtag)?;
    }
    Ok(list)
}

/// The parts, with a bar between two. Those that are not there are empty.
fn shown(alloc: Global, text: &str) -> Result<String, LangFault> {
    let tag = Tag::parse(alloc, text.as_bytes())?;
    let language = tag.language().unwrap_or("");
    let extlangs = listed(alloc, tag.extlangs())?;
    let script = tag.script().unwrap_or("");
    let region = tag.region().unwrap_or("");
    let variants = listed(alloc, tag.variants())?;
    Ok(format!(in alloc; "{language}|{extlangs}|{script}|{region}|{variants}")?)
}

#[test]
fn examples(rt: HostRuntime) -> Result<(), Fail> {
    for row in EXAMPLES.lines() {
        let (text, expected) = row.split_once("|").unwrap_or((row, ""));
        assert!(rt; shown(rt.alloc(), text)?.as_str() == expected, "{row}");
    }
    Ok(())
}

#[test]
fn others(rt: HostRuntime) -> Result<(), Fail> {
    for row in OTHERS.lines() {
        let (text, expected) = row.split_once("|").unwrap_or((row, ""));
        assert!(rt; shown(rt.alloc(), text)?.as_str() == expected, "{row}");
    }
    Ok(())
}
