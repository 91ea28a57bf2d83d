//! Finding a credential.

ghost use Rattle.std.specs.Prelude.{◌≡◌, option_copied};
ghost use Rattle.krb_ccache.specs.Finding.{is_option, is_known_key, start_of, is_valid, is_invalid, same_names, same_principal, tgs_components, is_wanted, longer, longest};
ghost use Rattle.krb_ccache.specs.Views.{service_components, wanted_view};

use crate::credential::{Credential, SessionKey, Times};
use crate::principal::CcachePrincipal;
use krb_der::{Items, Octets};

/// The realm of the options of a cache.
const OPTION_REALM: [u8; 12] = *b"X-CACHECONF:";

/// The first component of the name of each ticket-granting service (RFC 4120, section 7.3).
const TGS_NAME: [u8; 6] = *b"krbtgt";

/// The service that a ticket is for.
#[derive(Clone, Copy)]
pub enum Service<'a> {
    /// The service of these components.
    Named(&'a Items<Octets>),
    /// The ticket-granting service of this realm.
    Granting(&'a Octets),
}

/// Which ticket is looked for.
#[derive(Clone, Copy)]
pub struct Wanted<'a> {
    pub client: &'a CcachePrincipal,
    pub service: Service<'a>,
    /// In seconds since 1970.
    pub seconds: u32,
}

/// Returns whether a credential is an option of the cache.
pub fn is_option(credential: &Credential) -> bool
    ensures { result ≡ is_option credential.now }
{
    credential.server.realm.as_slice() == OPTION_REALM.as_slice()
}

/// Returns whether a key is one of AES-256 or AES-128, of its length.
fn is_known_key(key: &SessionKey) -> bool
    ensures { result ≡ is_known_key key.now }
{
    let size = key.octets.as_ref().as_slice().len();
    (key.key_type == 18 && size == 32) || (key.key_type == 17 && size == 16)
}

fn start_of(times: &Times) -> u32
    ensures { result ≡ start_of times.now }
{
    if times.start == 0 {
        times.authenticated
    } else {
        times.start
    }
}

/// Returns whether a ticket is valid in this second.
fn is_valid(times: &Times, seconds: u32) -> bool
    ensures { result ≡ is_valid times.now seconds }
{
    start_of(times) <= seconds && seconds < times.end
}

/// Returns whether the flag INVALID is set.
fn is_invalid(flags: u32) -> bool
    ensures { result ≡ is_invalid flags }
{
    flags / (1 << 24) % 2 == 1
}

pub fn is_same_principal(a: &CcachePrincipal, b: &CcachePrincipal) -> bool
    ensures { result ≡ same_principal a.now b.now }
{
    a.realm == b.realm && a.components == b.components
}

/// Returns whether a name is that of the ticket-granting service of a realm.
fn is_granting(components: &[Octets], realm: &Octets) -> bool
    ensures { result ≡ same_names components.now (tgs_components realm.now) }
{
    match components {
        [first, second] => first.as_slice() == TGS_NAME.as_slice() && *second == *realm,
        _ => false,
    }
}

/// Returns whether a name is that of a service.
fn is_service(components: &Items<Octets>, service: &Service<'_>) -> bool
    ensures { result ≡ same_names components.now (service_components service.now) }
{
    match service {
        Service::Named(names) => *components == **names,
        Service::Granting(realm) => is_granting(components.as_slice(), realm),
    }
}

/// Returns whether a credential is a ticket that is looked for.
fn is_wanted(wanted: &Wanted<'_>, credential: &Credential) -> bool
    ensures { result ≡ is_wanted (wanted_view wanted.now) credential.now }
{
    is_service(&credential.server.components, &wanted.service)
        && is_same_principal(&credential.client, wanted.client)
        && !is_option(credential)
        && credential.is_skey == 0
        && !is_invalid(credential.flags)
        && is_valid(&credential.times, wanted.seconds)
        && is_known_key(&credential.key)
}

/// Of two credentials the one that is valid for longer, of equals the later.
fn longer<'a>(best: Option<&'a Credential>, credential: &'a Credential) -> &'a Credential
    ensures { result.now ≡ longer (option_copied best.entry) credential.now }
{
    match best {
        Some(best) if credential.times.end < best.times.end => best,
        _ => credential,
    }
}

/// Of the credentials that are looked for the one that is valid for longest, of equals the last.
#[tactic(auto, unfolding(crate::specs::Finding::longest))]
pub fn longest<'a>(credentials: &'a [Credential], wanted: &Wanted<'_>) -> Option<&'a Credential>
    ensures { option_copied result ≡ longest (is_wanted (wanted_view wanted.now)) credentials.now }
{
    let mut best = None;
    for credential in credentials {
        if is_wanted(wanted, credential) {
            best = Some(longer(best, credential));
        }
    }
    best
}
