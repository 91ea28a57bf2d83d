//! The AES suites of Kerberos (RFC 3961, RFC 3962): sealed texts, checksums, derived keys and password keys.
//!
//! A text is encrypted under a suite, a key and a usage, after a confounder of 16 random bytes that the caller draws:
//!
//! ```text
//! let suite = CipherSuite::try_from(18)?;
//! let text = encrypt(alloc, suite, key, usage, confounder, plain)?;
//! let same = decrypt(alloc, suite, key, usage, text.as_slice())?;
//! ```
//!
//! Each such call derives the keys of the usage anew, and makes them ready for its own direction alone. Whoever seals or opens
//! many texts keeps a `SealingKey`, which holds them derived and expanded. No load and no branch of AES depends on a key or a
//! text, and comparisons of checksums do not end early.
#![tactic(auto)]

mod cbc;
mod checksum;
mod cts;
mod error;
mod fold;
mod folded;
mod hmac;
pub mod laws;
mod octets;
mod one_way;
mod password;
mod sealing;
mod sealing_key;
mod suite;

pub use checksum::{checksum_key, checksum_sha_aes, encryption_checksum, start_checksum};
pub use cts::{cts_decrypt, cts_encrypt};
pub use error::CryptoError;
pub use fold::n_fold;
pub use hmac::{HmacKey, HmacState, hmac_sha1};
pub use krb_aes::{decrypt_block, encrypt_block};
pub use krb_der::is_equal;
pub use password::{generate_key_from_password, pbkdf2};
pub use sealing::{decrypt, decrypt_no_checksum, encrypt, encrypt_no_checksum};
pub use sealing_key::{CHECKSUM_LEN, CONFOUNDER_LEN, Opened, SEALED_EXTRA_LEN, SealingKey};
pub use suite::{AesSize, CipherSuite, DerivedKey, derive_key, key_of};
