//! Sites as they are written, and bytes that are refused as documents.

use super::answers::is_line;
use docs_core::{Doc, DocFault, read_delta, read_site, write_delta, write_site};
use std::alloc::{AllocError, Global};
use std::test::Fail;

/// A site with the greatest numbers, a deletion, and texts that are written with escapes.
const SITE: &str = concat!(
    r#"{"cells":[["m","@none",5,"a",0,null],"#,
    r#"["m","en",18446744073709551615,"b",4294967295,["\n\u0001\"","","x"]],"#,
    r#"["n","de",7,"a",1,["y"]]],"kind":"site","site":"paris","version":2}"#,
    "\n"
);

/// Blanks and escapes are free, and so is the case of a language.
const OTHER_SPELLING: &str = concat!(
    " { \"cells\" : [ [\"\\u006d\",\"@none\",5,\"a\",0,null] ,\n",
    "[\"m\",\"EN\",18446744073709551615,\"b\",4294967295,[\"\\u000a\\u0001\\u0022\",\"\",\"x\"]],",
    "[\"n\",\"de\",7,\"a\",1,[\"y\"]]],\"k\\u0069nd\":\"site\",\t\"site\":\"paris\",\"version\":2}"
);

fn rewritten(alloc: Global, text: &str) -> Result<Doc, DocFault> {
    let site = read_site(alloc, text.as_bytes())?;
    Ok(write_site(alloc, &site)?)
}

fn rewritten_delta(alloc: Global, text: &[u8]) -> Result<Doc, DocFault> {
    let delta = read_delta(alloc, text)?;
    Ok(write_delta(alloc, &delta)?)
}

#[test]
fn what_is_read_is_written(rt: HostRuntime) {
    assert!(rt; is_line(rewritten(rt.alloc(), SITE), SITE.trim_end()));
    assert!(rt; is_line(rewritten(rt.alloc(), OTHER_SPELLING), SITE.trim_end()));
}

/// The rows of a message in this many languages, each with a comma before it.
fn write_message(
    alloc: Global,
    text: &mut String,
    id: &str,
    languages: u16,
) -> Result<(), AllocError> {
    for number in 0..languages {
        let variant = 1000 + u32::from(number);
        let row = format!(in alloc; ",[\"{id}\",\"en-{variant}\",1,\"a\",0,null]")?;
        text.push_str(&row)?;
    }
    Ok(())
}

/// A site with messages in more languages than are kept, and in fewer.
fn many_languages(alloc: Global) -> Result<String, AllocError> {
    let mut text = String::from_str(alloc, r#"{"cells":[["l","en",1,"a",0,null]"#)?;
    for (id, languages) in [("m", 70), ("n", 2), ("o", 70), ("p", 66)] {
        write_message(alloc, &mut text, id, languages)?;
    }
    text.push_str("],\"kind\":\"site\",\"site\":\"paris\",\"version\":2}\n")?;
    Ok(text)
}

#[test]
fn messages_of_many_languages_are_read(rt: HostRuntime) -> Result<(), Fail> {
    let text = many_languages(rt.alloc())?;
    assert!(rt; is_line(rewritten(rt.alloc(), &text), text.trim_end()));
    Ok(())
}

#[test]
fn a_text_is_refused(rt: HostRuntime) {
    let text = r#"{"cells":[7],"kind":"site","site":"","version":2}"#;
    let line = "refused 27: site name of document 1";
    assert!(rt; is_line(rewritten(rt.alloc(), text), line));
}

#[test]
fn a_delta_cut_short(rt: HostRuntime) {
    let text =
        b"{\"cells\":[[\"m\",\"en\",5,\"0000000001\",0,[\"a\"]]],\"kind\":\"delta\",\"to\":\"0000000002\",\"version\":2}\n";
    for len in 0..text.len() - 1 {
        let answer = rewritten_delta(rt.alloc(), &text[..len]);
        assert!(rt; is_line(answer, "refused 19: not JSON of document 1"));
    }
}
