//! The KDC that the requests for a realm go to.

ghost use Rattle.std.specs.Prelude.{◌≡◌, IfOk};
ghost use Rattle.sspi_core.specs.declared.cause.Cause.TheVariants as causes;
ghost use Rattle.sspi_core.specs.Protocol.{scheme_of};
ghost use Rattle.sspi_core.specs.Checks.{Answers, Finds, Takes};
ghost use Rattle.krb_as.specs.Kdcs.{kdc_url, FindsKdc};

use krb_conf::{Env, detect_kdc_url};
use krb_der::{Name, OutOfMemory, TryCopy};
use sspi_core::{Cause, NetworkProtocol};
use std::alloc::Global;
use url::Url;

/// A KDC of a realm, or a proxy that reaches it.
#[derive(Drop)]
pub struct Kdc {
    /// The protocol that carries requests. Its URL has this scheme.
    pub protocol: NetworkProtocol,
    pub url: Url,
    /// The realm, which is sent to a proxy.
    pub realm: Name,
}

impl TryCopy for Kdc {
    fn copy(&self, alloc: Global) -> Result<Kdc, OutOfMemory> {
        Ok(Kdc {
            protocol: self.protocol,
            url: self.url.clone()?,
            realm: self.realm.copy(alloc)?,
        })
    }
}

/// Returns the URL that is known, otherwise the one that is found.
fn url_for(
    alloc: Global,
    own: &Option<Url>,
    env: &Env,
    realm: &Name,
) -> Result<Option<Url>, OutOfMemory>
    ensures { IfOk result (λ url. url ≡ kdc_url own.now env.now realm.now) }
{
    match own {
        Some(url) => Ok(Some(url.clone()?)),
        None => detect_kdc_url(alloc, env, realm.as_str()),
    }
}

fn known_url(alloc: Global, own: &Option<Url>, env: &Env, realm: &Name) -> Result<Url, Cause>
    ensures { Answers (Takes causes.NoKdc (kdc_url own.now env.now realm.now)) result }
{
    match url_for(alloc, own, env, realm)? {
        Some(url) => Ok(url),
        None => Err(Cause::NoKdc),
    }
}

/// Returns the protocol that a URL names.
fn protocol_of(url: &Url) -> Result<NetworkProtocol, Cause>
    ensures { Finds causes.Scheme (λ protocol. url.now.scheme ≡ scheme_of protocol) result }
{
    match NetworkProtocol::from_url_scheme(url.scheme()) {
        Some(protocol) => Ok(protocol),
        None => Err(Cause::Scheme),
    }
}

/// Returns the KDC of a realm: at the URL that is known for it, otherwise at the one that `krb_conf::detect_kdc_url` finds.
///
/// Fails with `NoKdc` if there is no URL, then with `Scheme` if its scheme is not tcp, udp, http or https.
#[tactic(auto, unfolding(crate::specs::Kdcs::FindsKdc))]
pub fn find_kdc(alloc: Global, own: &Option<Url>, env: &Env, realm: &Name) -> Result<Kdc, Cause>
    ensures { Answers (FindsKdc own.now env.now realm.now) result }
{
    let url = known_url(alloc, own, env, realm)?;
    let protocol = protocol_of(&url)?;
    let realm = realm.copy(alloc)?;
    Ok(Kdc {
        protocol,
        url,
        realm,
    })
}
