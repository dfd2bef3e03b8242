//! Two sites put a label each, sync, and are asked for the label of a reader.
#![tactic(auto)]

use cata_core::{LentReply, Site, sync};
use cell_core::{Label, MessageId, SiteName};
use lang_core::Lang;
use nego_core::PriorityList;
use std::alloc::{AllocError, Global};

fn main(rt: HostRuntime) -> anyhow::Result<()> {
    let alloc = rt.alloc();
    let mut paris = site_of(alloc, "paris", 5, "fr", "Bonjour")?;
    let mut tokyo = site_of(alloc, "tokyo", 6, "ja", "こんにちは")?;
    sync(alloc, &mut paris, &mut tokyo)?;
    let line = answer(alloc, &paris, b"ja-JP, en;q=0.5")?;
    println!(rt; "{}", line.as_str())?;
    Ok(())
}

/// A site of this name, which has put a greeting of one text.
fn site_of(alloc: Global, name: &str, now: u64, tag: &str, text: &str) -> anyhow::Result<Site> {
    let mut site = Site::new(alloc, SiteName::new(name)?);
    let id = MessageId::new(alloc, "greeting")?;
    let lang = Lang::parse(alloc, tag.as_bytes())?;
    let label = Label::new(alloc, &[String::from_str(alloc, text)?])?;
    site.put(alloc, now, &id, &lang, &label)?;
    Ok(site)
}

/// What a reader with these preferences gets as a greeting.
fn answer(alloc: Global, site: &Site, field: &[u8]) -> anyhow::Result<String> {
    let id = MessageId::new(alloc, "greeting")?;
    let list = PriorityList::from_accept(alloc, field)?;
    let reply = site.catalogue().ask_lookup(&id, &list, None);
    Ok(line_of(alloc, &reply)?)
}

/// The line of an answer.
fn line_of(alloc: Global, reply: &LentReply<'_>) -> Result<String, AllocError> {
    match reply {
        LentReply::Matched(lang, label) => {
            format!(in alloc; "matched {} {:?}", **lang, label.texts())
        }
        LentReply::Default(lang, label) => {
            format!(in alloc; "default {} {:?}", **lang, label.texts())
        }
        LentReply::Nothing => String::from_str(alloc, "nothing"),
    }
}
