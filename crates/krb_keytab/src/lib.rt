//! Keytab files: the keys of services, as MIT krb5 and Heimdal keep them in files of the format 0502.
//!
//! ```text
//! let keytab = Keytab::read(alloc, &octets)?;
//! let installed = keytab.install(alloc, &realm, &mut properties)?;
//! ```
#![tactic(auto)]

mod entry;
mod error;
mod find;
mod install;
mod keytab;
pub mod laws;
mod read;
mod realm_keys;
mod write;

pub use entry::KeytabEntry;
pub use error::KeytabError;
pub use keytab::Keytab;
