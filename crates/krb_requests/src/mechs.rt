//! The mechanisms of a client.

ghost use Rattle.std.specs.Prelude.{◌≡◌};
ghost use Rattle.krb_requests.specs.Mechs.{mech_list};

use krb_messages::Oid;

/// The mechanisms that a client names, the best first: Kerberos as Windows first spelled it, and Kerberos (RFC 4121,
/// section 4.1).
pub fn get_mech_list() -> [Oid<'static>; 2]
    ensures { result ≡ mech_list }
{
    [Oid::MsKrb5, Oid::Krb5]
}
