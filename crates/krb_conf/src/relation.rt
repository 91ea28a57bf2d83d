//! A name and its value, and the key under which the value is kept.

ghost use Rattle.std.specs.Prelude.{◌≡◌, ◌++◌, ◌∷◌, [], IfOk, option_copied};
ghost use Rattle.krb_conf.specs.Krb5Conf.{key};

use krb_der::{OutOfMemory, Text};
use std::alloc::Global;

/// A name and its value, with the section and the group that they are in.
#[derive(Clone, Copy)]
pub(crate) struct Relation<'a> {
    pub(crate) section: &'a str,
    pub(crate) group: Option<&'a str>,
    pub(crate) name: &'a str,
    pub(crate) value: &'a str,
}

impl Relation<'_> {
    /// The section, the group if there is one, and the name, joined by `|`.
    pub(crate) fn key(&self, alloc: Global) -> Result<Text, OutOfMemory>
        ensures { IfOk result (λ made. made
            ≡ key self.now.section.now (option_copied self.now.group) self.now.name.now) }
    {
        let mut key = String::from_str(alloc, self.section)?;
        if let Some(group) = self.group {
            key.push('|')?;
            key.push_str(group)?;
        }
        key.push('|')?;
        key.push_str(self.name)?;
        Ok(Text::new(key))
    }

    /// The key and the value.
    pub(crate) fn entry(&self, alloc: Global) -> Result<(Text, Text), OutOfMemory>
        ensures { IfOk result (λ entry. entry
            ≡ (
              key self.now.section.now (option_copied self.now.group) self.now.name.now,
              self.now.value.now,
            )) }
    {
        Ok((self.key(alloc)?, Text::from_str(alloc, self.value)?))
    }
}
