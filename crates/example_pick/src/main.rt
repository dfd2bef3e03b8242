//! Which of the languages of a site does a reader get, who sends this Accept-Language header?
#![tactic(auto)]

use lang_core::Lang;
use nego_core::{Found, PriorityList, lookup};
use std::alloc::Global;

fn main(rt: HostRuntime) -> anyhow::Result<()> {
    let alloc = rt.alloc();
    let list = PriorityList::from_accept(alloc, b"da, en-GB;q=0.8, en;q=0.7")?;
    let langs = langs_of(alloc, &["de", "en", "pt-BR"])?;
    match lookup(&list, langs.as_slice(), langs.first()) {
        Found::Matched(place) => println!(rt; "matched {}", langs[place])?,
        Found::Default(place) => println!(rt; "default {}", langs[place])?,
        Found::Nothing => println!(rt; "nothing")?,
    }
    Ok(())
}

/// The languages of these tags.
fn langs_of(alloc: Global, tags: &[&str]) -> anyhow::Result<Vec<Lang>> {
    let mut langs = Vec::new(alloc);
    for tag in tags {
        langs.push(Lang::parse(alloc, tag.as_bytes())?)?;
    }
    Ok(langs)
}
