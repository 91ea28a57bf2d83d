//! Options of a cache.

ghost use Rattle.std.specs.Prelude.{◌≡◌, option_copied};
ghost use Rattle.krb_ccache.specs.Finding.{same_names};
ghost use Rattle.krb_ccache.specs.Options.{option_components, is_option_of, first_option};

use crate::credential::Credential;
use crate::find::{is_option, is_same_principal};
use crate::principal::CcachePrincipal;
use krb_der::Octets;

/// The first component of the name of each option.
const CONF_DATA: [u8; 21] = *b"krb5_ccache_conf_data";

/// Which option is looked for.
#[derive(Clone, Copy)]
pub struct WantedOption<'a> {
    pub client: &'a CcachePrincipal,
    pub name: &'a [u8],
    /// The principal that it is of, as text, or none if it is of the cache as a whole.
    pub principal: Option<&'a [u8]>,
}

/// Returns whether components are those of an option.
fn is_option_name(components: &[Octets], name: &[u8], principal: Option<&[u8]>) -> bool
    ensures { result ≡ same_names components.now (option_components name.now (option_copied principal.entry)) }
{
    match (components, principal) {
        ([first, second], None) => {
            first.as_slice() == CONF_DATA.as_slice() && second.as_slice() == name
        }
        ([first, second, third], Some(principal)) => {
            first.as_slice() == CONF_DATA.as_slice()
                && second.as_slice() == name
                && third.as_slice() == principal
        }
        _ => false,
    }
}

/// Returns whether a credential is the option of this client, name and principal.
fn is_option_of(wanted: &WantedOption<'_>, credential: &Credential) -> bool
    ensures { result ≡ is_option_of wanted.now.client.now wanted.now.name.now (option_copied wanted.now.principal) credential.now }
{
    is_option(credential)
        && is_option_name(
            credential.server.components.as_slice(),
            wanted.name,
            wanted.principal,
        )
        && is_same_principal(&credential.client, wanted.client)
}

/// The first of the credentials that is the option that is looked for.
pub fn first_option<'a>(
    credentials: &'a [Credential],
    wanted: &WantedOption<'_>,
) -> Option<&'a Credential>
    ensures { option_copied result ≡ first_option wanted.now.client.now wanted.now.name.now (option_copied wanted.now.principal) credentials.now }
{
    for credential in credentials {
        if is_option_of(wanted, credential) {
            return Some(credential);
        }
    }
    None
}
