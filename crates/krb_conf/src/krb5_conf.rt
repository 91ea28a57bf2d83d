//! The values of a `krb5.conf`.

ghost use Rattle.std.specs.Prelude.{◌≡◌, IfOk, map, option_copied, option_map};
ghost use Rattle.std.specs.List.{find};
ghost use Rattle.krb_conf.specs.Key as words;
ghost use Rattle.krb_conf.specs.Krb5Conf.{values_of, value_at, section_at};

use crate::key::{is_same_text, join, under};
use crate::line::is_skipped;
use crate::reader::{Effect, Place, effect_at};
use krb_der::{Items, OutOfMemory, Text, TryCopy};
use std::alloc::Global;
use std::marker::Model;

/// The values of a `krb5.conf`, each with its key: section, group and name, joined by `|`.
#[derive(Drop)]
pub struct Krb5Conf {
    values: Vec<(Text, Text)>,
}

impl Model for Krb5Conf {
    ghost use Rattle.std.specs.Prelude.{List, ℕ};

    ghost Value = { List (List ℕ × List ℕ) };

    ghost view = { λ conf. conf.values.items };
}

impl Krb5Conf {
    /// Reads the whole text, in time linear in its length.
    pub fn new_from_data(alloc: Global, text: &str) -> Result<Krb5Conf, OutOfMemory>
        ensures { IfOk result (λ conf. conf ≡ values_of text.now) }
    {
        let mut values = Vec::new(alloc);
        let mut place = Place::Outside;
        for whole in text.split('\n') {
            let line = whole.trim();
            if is_skipped(line) {
                continue;
            }
            match effect_at(place, line) {
                Effect::Nothing => {}
                Effect::LeadsTo(next) => place = next,
                Effect::Adds(relation) => values.push(relation.entry(alloc)?)?,
            }
        }
        Ok(Krb5Conf { values })
    }

    /// The keys and their values.
    pub(crate) fn values(&self) -> &[(Text, Text)]
        ensures { result.now ≡ self.now }
    {
        self.values.as_slice()
    }

    /// The first value under this key, the case of ASCII letters ignored.
    pub(crate) fn find(&self, key: &str) -> Option<&Text>
        ensures { option_copied result
            ≡ option_map (λ entry. entry.1)
            (find (λ entry. words.is_same_text entry.0 key.now) self.entry.now) }
    {
        for (name, value) in &self.values {
            if is_same_text(name.as_str(), key) {
                return Some(value);
            }
        }
        None
    }

    /// The first value whose key is the path's names, joined by `|`; the case of ASCII letters is
    /// ignored.
    pub fn get_value(&self, alloc: Global, path: &[&str]) -> Result<Option<Text>, OutOfMemory>
        ensures { IfOk result (λ value. value
            ≡ value_at (map (λ name. name.now) path.now) self.now) }
    {
        let key = join(alloc, path)?;
        match self.find(key.as_str()) {
            Some(value) => Ok(Some(value.copy(alloc)?)),
            None => Ok(None),
        }
    }

    /// The values whose key begins with the path's names, each followed by `|`, in their order, with
    /// the rest of the key; the case of ASCII letters is ignored. None where there is none.
    pub fn get_values_in_section(
        &self,
        alloc: Global,
        path: &[&str],
    ) -> Result<Option<Items<(Text, Text)>>, OutOfMemory>
        ensures { IfOk result (λ found. found
            ≡ section_at (map (λ name. name.now) path.now) self.now) }
    {
        let section = join(alloc, path)?;
        let mut found = Vec::new(alloc);
        for (key, value) in &self.values {
            let Some(rest) = under(key.as_str(), section.as_str()) else {
                continue;
            };
            found.push((Text::from_str(alloc, rest)?, value.copy(alloc)?))?;
        }
        if found.is_empty() {
            return Ok(None);
        }
        Ok(Some(Items::new(found)))
    }
}
