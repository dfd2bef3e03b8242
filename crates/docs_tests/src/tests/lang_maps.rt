//! Language maps: what is written of them, and which texts are refused.

use super::answers::is_line;
use cell_core::{Label, MessageId};
use docs_core::{Doc, DocFault, LangMaps, read_langmaps, write_langmaps};
use lang_core::Lang;
use std::alloc::Global;
use std::test::Fail;

/// What is written of the labels that are read.
fn rewritten(alloc: Global, text: &[u8]) -> Result<Doc, DocFault> {
    let maps = read_langmaps(alloc, text)?;
    Ok(write_langmaps(alloc, &maps)?)
}

/// Languages come in any order and case, and what begins with `@` is no message.
#[test]
fn what_is_read_is_written(rt: HostRuntime) {
    let text = br#"{"@context":{},"m":{"EN":"a","de":null,"fr":["b",null],"@none":"c"}}"#;
    assert!(rt;
        is_line(
            rewritten(rt.alloc(), text),
            r#"{"m":{"@none":"c","en":"a","fr":"b"}}"#
        )
    );
}

#[test]
fn a_text_is_refused(rt: HostRuntime) {
    let line = "refused 22: language repeated in row 0 of document 1";
    assert!(rt; is_line(rewritten(rt.alloc(), br#"{"m":{"EN":null,"en":1}}"#), line));
}

fn label(alloc: Global, text: &str) -> Result<Label, Fail> {
    let text = String::from_str(alloc, text)?;
    Ok(Label::from_texts(Vec::from_array(alloc, [text])?)?)
}

/// What is written of one label that is pushed.
fn pushed(alloc: Global) -> Result<Doc, Fail> {
    let mut maps = LangMaps::new(alloc);
    let label = label(alloc, "a")?;
    let lang = Lang::parse(alloc, b"en")?;
    maps.push(MessageId::new(alloc, "m")?, lang, label)?;
    Ok(write_langmaps(alloc, &maps)?)
}

#[test]
fn a_label_is_pushed(rt: HostRuntime) -> Result<(), Fail> {
    assert!(rt; is_line(Ok(pushed(rt.alloc())?), r#"{"m":{"en":"a"}}"#));
    Ok(())
}

#[test]
fn no_labels_are_an_empty_object(rt: HostRuntime) -> Result<(), Fail> {
    let maps = LangMaps::new(rt.alloc());
    let doc = write_langmaps(rt.alloc(), &maps)?;
    assert!(rt; maps.is_empty() && doc.bytes() == b"{}\n".as_slice());
    Ok(())
}

/// Whether the walk meets just these languages, each with one text of the message `m`.
fn is_walk(maps: &LangMaps, tags: &[&str]) -> bool {
    for (found, tag) in maps.iter().zip(tags) {
        if found.id().as_str() != "m"
            || found.lang().as_str() != *tag
            || found.value().texts().len() != 1
        {
            return false;
        }
    }
    maps.len() == tags.len()
}

fn is_tag_at(maps: &LangMaps, place: usize, tag: &str) -> bool {
    match maps.nth(place) {
        Some((_, lang, _)) => lang.as_str() == tag,
        None => tag.is_empty(),
    }
}

#[test]
fn labels_are_in_ascending_order(rt: HostRuntime) -> Result<(), Fail> {
    let text = r#"{"m":{"EN":"a","de":null,"fr":["b",null],"@none":"c"}}"#;
    let maps = read_langmaps(rt.alloc(), text.as_bytes())?;
    assert!(rt; is_walk(&maps, &["@none", "en", "fr"]));
    assert!(rt;
        is_tag_at(&maps, 0, "@none") && is_tag_at(&maps, 2, "fr") && is_tag_at(&maps, 3, "")
    );
    Ok(())
}
