//! Languages that are not ranked yet, by their texts.
ghost use Rattle.std.specs.Prelude.{◌≡◌, ◌≤◌, IfOk, length, option_map, false};
ghost use Rattle.nego_core.specs.Filtering.{texts_of};
ghost use Rattle.nego_core.specs.LangSet.{is_among};
ghost use Rattle.nego_core.specs.inner.Unranked.{AreSpelled, Spells, TakesFrom, texts_left};

use crate::lang_set::Holds;
use lang_core::Lang;
use std::alloc::{AllocError, Global};
use std::collections::BTreeMap;
use std::marker::Model;

/// Languages that are not ranked yet, each once.
#[derive(Drop)]
pub(crate) struct Unranked<'a> {
    langs: BTreeMap<&'a str, &'a Lang>,
}

impl<'a> Model for Unranked<'a> {
    ghost use Rattle.std.specs.Prelude.{List, ℕ};
    ghost use Rattle.nego_core.specs.inner.Unranked.{AreSpelled, texts_left};

    ghost Value = { List (List ℕ) };

    ghost view = { λ u. texts_left u.langs.entries };

    ghost invariant = { λ u. AreSpelled u.langs.entries };
}

impl<'a> Unranked<'a> {
    /// All of these languages.
    pub(crate) fn new(alloc: Global, langs: &[&'a Lang]) -> Result<Unranked<'a>, AllocError>
        ensures { IfOk result (λ unranked. Spells (texts_of langs.now) unranked) }
    {
        let mut left = BTreeMap::new(alloc);
        for lang in langs {
            match left.insert(lang.as_str(), *lang) {
                Ok(_) => {}
                Err(_) => return Err(AllocError),
            }
        }
        Ok(Unranked { langs: left })
    }

    /// Takes the language of this text out, where it is there.
    pub(crate) fn take(&mut self, text: &str) -> Option<&'a Lang>
        ensures { TakesFrom self.old text.now self.new (option_map (λ l. l.now) result) }
    {
        self.langs.remove(text)
    }
}

impl<'a> Holds for Unranked<'a> {
    ghost held = { λ left text. is_among left text };

    fn holds(&self, lang: &str) -> bool {
        self.langs.contains_key(lang)
    }
}
