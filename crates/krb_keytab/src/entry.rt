//! An entry of a keytab.

use krb_der::{Items, Name, Octets};
use sspi_core::Secret;

/// A principal's key, of one version and one encryption type.
#[derive(Drop)]
pub struct KeytabEntry {
    /// The realm of the principal.
    pub realm: Name,
    /// The components of the principal's name.
    pub components: Items<Name>,
    /// The type of the name (RFC 4120, section 6.2).
    pub name_type: u32,
    /// When the entry was written, in seconds since 1970.
    pub time: u32,
    /// The version of the key (kvno).
    pub version: u32,
    /// The encryption type (RFC 3961, section 8), whether known here or not.
    pub key_type: u16,
    /// The key itself.
    pub key: Secret<Octets>,
}
