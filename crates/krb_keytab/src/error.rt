//! Why a keytab could not be read.

ghost use Rattle.std.specs.Prelude.{◌≡◌};
ghost use Rattle.krb_keytab.specs.declared.error.KeytabError.TheVariants as errors;

use krb_der::OutOfMemory;
use std::alloc::AllocFailed;

/// Why octets are no keytab, or could not be read.
#[derive(Clone, Copy, Debug, PartialEq, Eq)]
pub enum KeytabError {
    /// The file does not begin with the version 05 02.
    Version,
    /// No item begins at this place, in bytes from the front of the file.
    Entry { place: usize },
    /// Memory ran out.
    OutOfMemory,
}

impl From<OutOfMemory> for KeytabError {
    ghost from_gives = { λ _ e. e ≡ errors.OutOfMemory };

    fn from(_error: OutOfMemory) -> KeytabError {
        KeytabError::OutOfMemory
    }
}

impl<T: Drop> From<AllocFailed<T>> for KeytabError {
    ghost from_gives = { λ _ e. e ≡ errors.OutOfMemory };

    fn from(_failed: AllocFailed<T>) -> KeytabError {
        KeytabError::OutOfMemory
    }
}
