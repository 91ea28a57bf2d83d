//! A dialogue of a user that has a ticket.

ghost use Rattle.std.specs.Prelude.{◌≡◌, ◌++◌, ◌∷◌, [], IfOk, IfErr, OnOk, OnErr};
ghost use Rattle.std.specs.List.{flat_map};
ghost use Rattle.std.specs.String.{string_bytes};
ghost use Rattle.sspi_core.specs.Checks.{Answers, Takes};
ghost use Rattle.sspi_core.specs.Usernames.{UserPrincipal, user_name};
ghost use Rattle.sspi_core.specs.declared.cause.Cause.TheVariants as causes;
ghost use Rattle.sspi_core.specs.declared.error.Place.TheVariants as places;
ghost use Rattle.krb_context.specs.Refusals.{Refuses};
ghost use Rattle.krb_crypto.specs.Suite.{suite_number};
ghost use Rattle.krb_dialogue.specs.Settings.{account_of, NamesHolder, SetsTicket, HoldsAs, FindsAt, FindsFor, FindsTicket, NamesCacheHolder, SetsCache};

use crate::dialogue::Dialogue;
use krb_ccache::{Ccache, Credential};
use krb_conf::parse_target_name;
use krb_der::{Items, Name, Octets, OutOfMemory, Text, TryCopy};
use krb_tickets::{HeldTicket, held_of};
use sspi_core::{Cause, CredentialsBuffers, Error, KeytabIdentity, Username, UsernameError};
use std::alloc::Global;

/// Which ticket of a cache was found.
#[derive(Clone, Copy, Debug, PartialEq, Eq)]
pub enum CacheTicket {
    /// The ticket of the service.
    Service,
    /// The ticket for the ticket-granting service of the client's realm.
    Granting,
}

/// Adds components, each after a `/`.
fn put_further(text: &mut String, further: &[Name]) -> Result<(), OutOfMemory>
    ensures { OnOk result (string_bytes text.new ≡ string_bytes text.old ++ flat_map (λ part. 0x2f ∷ part) further.now) }
{
    for part in further {
        text.push('/')?;
        text.push_str(part.as_str())?;
    }
    Ok(())
}

/// Returns the components of a name, with a `/` between two.
fn account_of(alloc: Global, components: &[Name]) -> Result<Text, OutOfMemory>
    ensures { IfOk result (λ text. text ≡ account_of components.now) }
{
    let mut text = String::new(alloc);
    if let [first, further @ ..] = components {
        text.push_str(first.as_str())?;
        put_further(&mut text, further)?;
    }
    Ok(Text::new(text))
}

fn user_named(alloc: Global, account: &Text, realm: &Name) -> Result<Username, Cause>
    ensures { Answers (Takes causes.BadUser (user_name (UserPrincipal account.now realm.now))) result }
{
    match Username::new_upn(alloc, account.as_str(), realm.as_str()) {
        Ok(name) => Ok(name),
        Err(UsernameError::MixedFormat) => Err(Cause::BadUser),
        Err(UsernameError::OutOfMemory) => Err(Cause::Memory),
    }
}

/// Returns the user that is the client of a ticket.
fn holder_of(alloc: Global, held: &HeldTicket) -> Result<Username, Cause>
    ensures { Answers (NamesHolder held.now) result }
{
    let rep = &held.as_grant().rep;
    let account = account_of(alloc, rep.cname.name_string.as_slice())?;
    user_named(alloc, &account, &rep.crealm)
}

/// Returns a user with the session key of a ticket in the place of a key of a keytab.
fn identity_of(
    alloc: Global,
    user: Username,
    held: &HeldTicket,
) -> Result<KeytabIdentity, OutOfMemory>
    ensures user { IfOk result (λ identity. identity.principal ≡ user) }
    ensures etype { IfOk result (λ identity. identity.key_enctype ≡ suite_number held.now.suite) }
    ensures key { IfOk result (λ identity. identity.key ≡ held.now.key) }
{
    let grant = held.as_grant();
    let key = grant.key.copy(alloc)?;
    Ok(KeytabIdentity {
        principal: user,
        key,
        key_enctype: grant.suite.number(),
    })
}

/// Returns the components of a target.
fn target_components(alloc: Global, service: &str, host: &str) -> Result<Items<Octets>, OutOfMemory>
    ensures { IfOk result (λ components. components ≡ service.now ∷ host.now ∷ []) }
{
    let mut components = Vec::new(alloc);
    components.push(Octets::from_slice(alloc, service.as_bytes())?)?;
    components.push(Octets::from_slice(alloc, host.as_bytes())?)?;
    Ok(Items::new(components))
}

/// Returns the ticket of a credential.
#[tactic(auto, unfolding(crate::specs::Settings::HoldsAs))]
fn held_as(
    alloc: Global,
    which: CacheTicket,
    credential: &Credential,
) -> Result<(CacheTicket, HeldTicket), Cause>
    ensures { Answers (HoldsAs (which, credential.now)) result }
{
    let held = held_of(alloc, credential)?;
    Ok((which, held))
}

/// Returns the ticket of a cache for a service on a host.
fn find_at(
    alloc: Global,
    service: &str,
    host: &str,
    cache: &Ccache,
    seconds: u32,
) -> Result<(CacheTicket, HeldTicket), Cause>
    ensures { Answers (FindsAt cache.now seconds (service.now, host.now)) result }
{
    let components = target_components(alloc, service, host)?;
    match cache.find(&components, seconds) {
        Some(own) => held_as(alloc, CacheTicket::Service, own),
        None => match cache.find_tgt(seconds) {
            Some(tgt) => held_as(alloc, CacheTicket::Granting, tgt),
            None => Err(Cause::NoIdentity),
        },
    }
}

/// Returns the ticket of a cache for a target.
fn find_for(
    alloc: Global,
    target: &Name,
    cache: &Ccache,
    seconds: u32,
) -> Result<(CacheTicket, HeldTicket), Cause>
    ensures { Answers (FindsFor target.now cache.now seconds) result }
{
    match parse_target_name(target.as_str()) {
        Ok((service, host)) => find_at(alloc, service, host, cache, seconds),
        Err(_) => Err(Cause::Target),
    }
}

/// Returns the ticket of a cache for the target that there has to be.
#[tactic(auto, unfolding(crate::specs::Settings::FindsTicket))]
fn find_ticket(
    alloc: Global,
    target: &Option<Name>,
    cache: &Ccache,
    seconds: u32,
) -> Result<(CacheTicket, HeldTicket), Cause>
    ensures { Answers (FindsTicket target.now cache.now seconds) result }
{
    match target {
        None => Err(Cause::NoTarget),
        Some(target) => find_for(alloc, target, cache, seconds),
    }
}

impl Dialogue {
    /// Sets who asks: the client of a ticket, with this ticket and its session key. An exchange that begins from now on makes no AS
    /// exchange. A ticket, key or password that was set before is dropped.
    ///
    /// Fails with `BadUser` if the client's name has a `\`, or its realm a `\` or an `@`. Nothing is changed then.
    #[tactic(auto, using(crate::proofs::Led::refuses))]
    pub fn set_ticket(&mut self, alloc: Global, held: HeldTicket) -> Result<(), Error>
        ensures set { OnOk result (SetsTicket held self.old self.new) }
        ensures refused { IfErr result (Refuses places.Elsewhere (NamesHolder held)) }
        ensures stays { OnErr result (self.new ≡ self.old) }
    {
        match holder_of(alloc, &held) {
            Ok(user) => {
                let identity = identity_of(alloc, user, &held)?;
                self.options.credentials = Some(CredentialsBuffers::Keytab(identity));
                self.held = Some(held);
                Ok(())
            }
            Err(cause) => Err(Error::from(cause)),
        }
    }

    /// Sets who asks: the client of a credential cache, with the ticket for the target that is valid in this second since 1970, or
    /// otherwise with the ticket for the ticket-granting service of its realm, each chosen as [`Ccache::find`] chooses. Returns which one.
    /// A ticket of user-to-user is never chosen.
    ///
    /// Fails with `NoTarget` or `Target` if the dialogue has no target of two parts; with `NoIdentity` if the cache has neither ticket;
    /// then as [`held_of`](krb_tickets::held_of) and `set_ticket` fail. Nothing is changed then.
    pub fn set_ccache(
        &mut self,
        alloc: Global,
        cache: &Ccache,
        seconds: u32,
    ) -> Result<CacheTicket, Error>
        ensures set { IfOk result (λ which. SetsCache cache.now seconds which self.old self.new) }
        ensures refused { IfErr result (Refuses places.Elsewhere (NamesCacheHolder self.old.options.target cache.now seconds)) }
        ensures stays { OnErr result (self.new ≡ self.old) }
    {
        match find_ticket(alloc, &self.options.target, cache, seconds) {
            Ok((which, held)) => match self.set_ticket(alloc, held) {
                Ok(()) => Ok(which),
                Err(error) => Err(error),
            },
            Err(cause) => Err(Error::from(cause)),
        }
    }
}
