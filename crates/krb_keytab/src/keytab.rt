//! A keytab.

ghost use Rattle.std.specs.Prelude.{◌≡◌, ◌-◌, ◌^◌, true, IfOk, IfErr, OnOk, OnErr, None, option_copied, length, min};
ghost use Rattle.krb_keytab.specs.Finding.{Wanted, is_wanted, greatest};
ghost use Rattle.krb_keytab.specs.Installing.{keys_of, with_keys};
ghost use Rattle.krb_keytab.specs.Format.{Spells, IsFault, can_all_be_written, written};

use crate::entry::KeytabEntry;
use crate::error::KeytabError;
use crate::find::{Wanted, greatest};
use crate::install::{install, push_keys};
use crate::read::read_items;
use crate::write::{can_be_written, write_entries};
use krb_context::ServerProperties;
use krb_der::{Items, Name, Octets, OutOfMemory};
use krb_messages::PrincipalName;
use sspi_core::Secret;
use std::alloc::Global;

/// The entries of a keytab file, in their order.
#[derive(Drop)]
pub struct Keytab {
    pub entries: Items<KeytabEntry>,
}

impl Keytab {
    /// Reads the entries of a file of the format 0502. Passes over holes, and over what follows an entry's version. Fails with the
    /// first fault from the front, with its place.
    pub fn read(alloc: Global, octets: &[u8]) -> Result<Keytab, KeytabError>
        ensures found { IfOk result (λ keytab. Spells keytab.entries octets.now) }
        ensures refused { IfErr result (λ error. IsFault error octets.now) }
    {
        let [0x05, 0x02, body @ ..] = octets else {
            return Err(KeytabError::Version);
        };
        let entries = read_items(alloc, body)?;
        Ok(Keytab {
            entries: Items::new(entries),
        })
    }

    /// Returns whether each entry can be written: each length and each count of components is below 2^16, no version is 0, and
    /// each entry is shorter than 2^31 bytes.
    pub fn is_writable(&self) -> bool
        ensures { result ≡ can_all_be_written self.now.entries }
    {
        self.entries
            .as_slice()
            .iter()
            .all(|entry| can_be_written(entry))
    }

    /// Returns the file with these entries and no holes. Each version is in one byte, modulo 256, and whole in four.
    pub fn write(&self, alloc: Global) -> Result<Octets, OutOfMemory>
        requires { can_all_be_written self.now.entries ≡ true }
        ensures { IfOk result (λ octets. octets ≡ written self.now.entries) }
    {
        write_entries(alloc, self.entries.as_slice())
    }

    /// Returns the entry of this realm, these components, this type and, if it is given, this version, compared byte for byte:
    /// of several the one of the greatest version, of equals the last.
    pub fn find(
        &self,
        realm: &Name,
        components: &Items<Name>,
        key_type: u16,
        version: Option<u32>,
    ) -> Option<&KeytabEntry>
        ensures { option_copied result ≡ greatest (is_wanted (record {
          realm = realm.now;
          components = components.now;
          key_type = key_type;
          version = version;
          size = None;
        })) self.now.entries }
    {
        greatest(
            self.entries.as_slice(),
            &Wanted {
                realm,
                components,
                key_type,
                version,
                size: None,
            },
        )
    }

    /// Returns the services of this realm that have a key, in the order of their first entries, each as a name of type 2 with its
    /// key: one of type 18 with 32 bytes, otherwise one of type 17 with 16 bytes, of the greatest version, of equals the last.
    pub fn service_keys(
        &self,
        alloc: Global,
        realm: &Name,
    ) -> Result<Items<(PrincipalName, Secret<Octets>)>, OutOfMemory>
        ensures { IfOk result (λ keys. keys ≡ keys_of realm.now self.now.entries) }
    {
        let mut keys = Vec::new(alloc);
        push_keys(alloc, &mut keys, realm, self.entries.as_slice())?;
        Ok(Items::new(keys))
    }

    /// Appends the keys of `service_keys` to the further keys of an acceptor, and returns how many they are, at most 2^32 - 1. If
    /// memory runs out the properties are unchanged. The existing keys are copied once.
    pub fn install(
        &self,
        alloc: Global,
        realm: &Name,
        properties: &mut ServerProperties,
    ) -> Result<u32, OutOfMemory>
        ensures installed { OnOk result (properties.new ≡ with_keys properties.old (keys_of realm.now self.now.entries)) }
        ensures count { IfOk result (λ count. count ≡ min (length (keys_of realm.now self.now.entries)) (2 ^ 32 - 1)) }
        ensures stays { OnErr result (properties.new ≡ properties.old) }
    {
        let count = install(alloc, realm, self.entries.as_slice(), properties)?;
        Ok(u32::try_from(count).unwrap_or(u32::MAX))
    }
}
