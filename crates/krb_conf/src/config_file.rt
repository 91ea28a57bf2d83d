//! The text of a file, read as a `krb5.conf` once.

ghost use Rattle.std.specs.Prelude.{◌≡◌, IfOk};
ghost use Rattle.krb_conf.specs.Krb5Conf.{values_of};

use crate::krb5_conf::Krb5Conf;
use krb_der::{OutOfMemory, Text, TryCopy};
use std::alloc::Global;
use std::marker::Model;
use std::sync::Arc;

/// A text with its values.
#[derive(Drop)]
struct ReadText {
    text: Text,
    conf: Krb5Conf,
    ghost read: { conf ≡ values_of text },
}

/// The text of a file, read as a `krb5.conf` when it is made. A copy takes no memory: all copies share the text and its
/// values, in any thread. Contracts see the text.
#[derive(Drop)]
pub struct ConfigFile {
    shared: Arc<ReadText, Global>,
}

impl Model for ConfigFile {
    ghost use Rattle.std.specs.Prelude.{List, ℕ};
    ghost use Rattle.std.specs.Arc.{arc_value};

    ghost Value = { List ℕ };

    ghost view = { λ file. (arc_value file.shared).text };
}

impl ConfigFile {
    /// The file of a text, which is read in time linear in its length.
    pub fn new(alloc: Global, text: Text) -> Result<ConfigFile, OutOfMemory>
        ensures { IfOk result (λ file. file ≡ text) }
    {
        let conf = Krb5Conf::new_from_data(alloc, text.as_str())?;
        Ok(ConfigFile {
            shared: Arc::new(alloc, ReadText { text, conf })?,
        })
    }

    pub fn as_str(&self) -> &str
        ensures { result.now ≡ self.now }
    {
        self.shared.text.as_str()
    }

    /// The values of the text as a `krb5.conf`.
    pub fn conf(&self) -> &Krb5Conf
        ensures { result.now ≡ values_of self.now }
    {
        &self.shared.conf
    }
}

impl TryCopy for ConfigFile {
    fn copy(&self, _alloc: Global) -> Result<ConfigFile, OutOfMemory> {
        Ok(ConfigFile {
            shared: Arc::try_clone(&self.shared)?,
        })
    }
}
