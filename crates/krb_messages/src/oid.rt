//! The object identifiers that name what a framed message is of.

ghost use Rattle.std.specs.Prelude.{◌≡◌};
ghost use Rattle.krb_messages.specs.Oid.{contents_of, IsByName};

use crate::constants::{KRB5_OID, MS_KRB5_OID, USER_TO_USER_OID};

/// An object identifier, seen by the octets of its contents (X.690 8.19).
#[derive(Clone, Copy, Debug, PartialEq, Eq)]
pub enum Oid<'a> {
    /// The Kerberos mechanism (RFC 4121 4.1).
    Krb5,
    /// The Kerberos mechanism as Windows first spelled it.
    MsKrb5,
    /// User-to-user, as Windows does it.
    UserToUser,
    /// Any other, by its contents.
    Other(&'a [u8]),
}

impl<'a> Oid<'a> {
    /// The identifier with these contents. One of the three is given by its name, never as `Other`.
    pub fn from_contents(contents: &'a [u8]) -> Oid<'a>
        ensures contents { contents_of result ≡ contents.now }
        ensures by_name { IsByName result }
    {
        if contents == KRB5_OID.as_slice() {
            Oid::Krb5
        } else if contents == MS_KRB5_OID.as_slice() {
            Oid::MsKrb5
        } else if contents == USER_TO_USER_OID.as_slice() {
            Oid::UserToUser
        } else {
            Oid::Other(contents)
        }
    }

    /// The octets of its contents.
    pub fn contents(self) -> &'a [u8]
        ensures { result.now ≡ contents_of self.entry }
    {
        match self {
            Oid::Krb5 => &KRB5_OID,
            Oid::MsKrb5 => &MS_KRB5_OID,
            Oid::UserToUser => &USER_TO_USER_OID,
            Oid::Other(contents) => contents,
        }
    }
}
