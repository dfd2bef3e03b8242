//! What readers are offered.
use crate::tests::reading::{accept, columns, lang};
use nego_core::Offer;
use std::process::Abort;
use std::test::Fail;

/// Rows of `FIELD|OFFERED|NOT OFFERED`.
const OFFERS: &str = "*|@none en en-x-a i-klingon x-note|
*, x;q=0|@none en en-x-a i-klingon|x-note x-a-b
en, fr, pt-BR|@none en en-gb fr-ca pt-br|pt de x-en
*, ja;q=0|@none en x-note|ja ja-latn
en;q=0.001, en-us;q=0|@none en en-gb|en-us en-us-x-a fr
|@none|en x-note
en;q=0|@none|en fr";

fn are_offered(
    rt: &(impl Abort + AllocGlobal),
    offer: Offer<'_>,
    texts: &str,
    wanted: bool,
) -> Result<(), Fail> {
    for text in texts.split_whitespace() {
        assert!(rt; offer.offers(&lang(rt, text)?) == wanted, "{text}");
    }
    Ok(())
}

#[test]
fn languages_that_a_list_offers(rt: HostRuntime) -> Result<(), Fail> {
    for row in OFFERS.lines() {
        let (field, offered, others, _) = columns(row);
        let list = accept(&rt, field)?;
        are_offered(&rt, Offer::Listed(&list), offered, true)?;
        are_offered(&rt, Offer::Listed(&list), others, false)?;
    }
    Ok(())
}

#[test]
fn all_languages_and_those_of_the_public(rt: HostRuntime) -> Result<(), Fail> {
    let texts = "@none en en-x-a i-klingon";
    are_offered(&rt, Offer::All, texts, true)?;
    are_offered(&rt, Offer::All, "x-note", true)?;
    are_offered(&rt, Offer::Public, texts, true)?;
    are_offered(&rt, Offer::Public, "x-note x-a-b", false)
}
