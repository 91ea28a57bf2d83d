//! All keys of an acceptor. A ticket names its service, realm, encryption type and key version in the clear, and is decrypted with the
//! one key that fits, so that tickets under the old key and under the new one are accepted after a change of keys.
//!
//! ```text
//! let mut ring = Keyring::new(alloc);
//! ring.add_keytab(alloc, &keytab)?;
//! let candidate = ring.judge(alloc, None, &token, &draw)?; // for each client
//! ```
//!
//! [`krb_entrance::admit`] then asks the replay book.
#![tactic(auto)]

mod choice;
mod judging;
mod keyring;
mod services;

pub use keyring::Keyring;
