//! The beginning of an initiation, by the context's state and the caller's options.

ghost use Rattle.std.specs.Prelude.{◌≡◌, ◌<◌, ◌≤◌, ◌^◌, length, is_some, true, false, IfOk, IfSome};
ghost use Rattle.sspi_core.specs.declared.cause.Cause.TheVariants as causes;
ghost use Rattle.sspi_core.specs.Flags.{has_flag, use_session_key};
ghost use Rattle.sspi_core.specs.Checks.{Answers, Gives, Holds};
ghost use Rattle.krb_conf.specs.Names.{target_parts};
ghost use Rattle.krb_authenticators.specs.Bindings.{AreShortBindings};
ghost use Rattle.krb_as.specs.Clients.{IsShort};
ghost use Rattle.krb_ap.specs.Initiators.{is_bare};
ghost use Rattle.krb_ap.specs.Shown.{CanGo};
ghost use Rattle.krb_initiator.specs.declared.seeker.Initiation.TheVariants as initiations;
ghost use Rattle.krb_initiator.specs.Tgts.{IsShortTgt};
ghost use Rattle.krb_initiator.specs.TgtReqs.{tgt_token};
ghost use Rattle.krb_initiator.specs.Seekers.{CanBegin};
ghost use Rattle.krb_initiator.specs.Beginnings.{
  identity_of,
  IsShortIdentity,
  initiator_of,
  errand_of,
  wanted_of,
  seeker_of,
  ChecksTarget,
  NamesTarget,
  NamesIdentity,
  Identifies,
  SeeksTicket,
  RequestsTgt,
  BeginsNew,
  BeginsInitiation,
};

use crate::options::InitOptions;
use crate::seeker::{Initiation, Seeker};
use crate::tgt::{ServiceTgt, take_tgt};
use crate::tgt_req::tgt_token;
use bitflags::Flags;
use krb_ap::{Errand, Initiator, exchange_flags};
use krb_as::{Asker, Client, asker_of, client_of};
use krb_conf::{Env, parse_target_name};
use krb_context::{Kerberos, KerberosState};
use krb_der::{Name, Octets, OutOfMemory, TryCopy, boxed};
use krb_tgs::Wanted;
use sspi_core::{Cause, ChannelBindings, ClientRequestFlags, CredentialsBuffers, hold};
use std::alloc::Global;

/// The maximum number of octets of a target, and of each part of channel bindings.
const MAX_PART: usize = 16_777_216;

/// The client, and the asker that speaks for it.
#[derive(Drop)]
pub struct Identity {
    pub asker: Asker,
    pub client: Client,
}

fn check_target(target: &Name) -> Result<(), Cause>
    ensures { Holds causes.Target (is_some (target_parts target.now)) result }
{
    let is_target = matches!(parse_target_name(target.as_str()), Ok(_));
    hold(is_target, Cause::Target)
}

/// Returns a copy of a target of at most 2^24 octets, which is a precondition of the caller's: there is no copy of a longer one.
fn short_target(alloc: Global, target: &Name) -> Result<Name, Cause>
    ensures copied { Answers (Gives target.now) result }
    ensures short { IfOk result (λ copy. length copy ≤ 2 ^ 24) }
{
    if target.as_slice().len() > MAX_PART {
        return Err(Cause::Memory);
    }
    Ok(target.copy(alloc)?)
}

/// Returns a copy of a target of two parts. Fails with `Target` if it has not that form.
#[tactic(auto, unfolding(crate::specs::Beginnings::ChecksTarget))]
fn checked_target(alloc: Global, target: &Name) -> Result<Name, Cause>
    ensures step { Answers (ChecksTarget target.now) result }
    ensures short { IfOk result (λ copy. length copy ≤ 2 ^ 24) }
{
    check_target(target)?;
    short_target(alloc, target)
}

/// Returns a copy of the target. Fails with `NoTarget` if there is none.
#[tactic(auto, unfolding(crate::specs::Beginnings::NamesTarget))]
fn target_in(alloc: Global, target: &Option<Name>) -> Result<Name, Cause>
    ensures step { Answers (NamesTarget target.now) result }
    ensures short { IfOk result (λ copy. length copy ≤ 2 ^ 24) }
{
    match target {
        None => Err(Cause::NoTarget),
        Some(target) => checked_target(alloc, target),
    }
}

/// Returns the context of an initiator.
fn initiator_of(
    alloc: Global,
    context: &Kerberos,
    user_to_user: bool,
    flags: ClientRequestFlags,
) -> Result<Initiator, OutOfMemory>
    ensures { IfOk result (λ initiator. initiator ≡ initiator_of context.now user_to_user flags) }
{
    let params = context.encryption_params.copy(alloc)?;
    let realm = context.realm.copy(alloc)?;
    Ok(Initiator {
        params,
        number: context.seq_number,
        realm,
        user_to_user,
        flags,
        rules: context.rules,
        asked_at: context.asked_at,
    })
}

fn is_short(octets: &Octets) -> bool
    ensures short { result ≡ true → length octets.now ≤ 2 ^ 24 }
    ensures long { result ≡ false → 2 ^ 24 < length octets.now }
{
    octets.as_slice().len() <= MAX_PART
}

fn are_short(bindings: &ChannelBindings) -> bool
    ensures { result ≡ true → AreShortBindings bindings.now }
{
    is_short(&bindings.initiator)
        && is_short(&bindings.acceptor)
        && is_short(&bindings.application_data)
}

/// Returns a copy of bindings whose parts have at most 2^24 octets each, which is a precondition: there is no copy of longer ones.
fn short_bindings(
    alloc: Global,
    bindings: &Option<ChannelBindings>,
) -> Result<Option<ChannelBindings>, OutOfMemory>
    ensures copied { IfOk result (λ copy. copy ≡ bindings.now) }
    ensures short { IfOk result (λ copy. IfSome copy AreShortBindings) }
{
    match bindings {
        None => Ok(None),
        Some(bindings) => {
            if !are_short(bindings) {
                return Err(OutOfMemory);
            }
            Ok(Some(bindings.copy(alloc)?))
        }
    }
}

/// Returns the client with the asker that speaks for it.
fn with_asker(
    alloc: Global,
    context: &Kerberos,
    credentials: &CredentialsBuffers,
    env: &Env,
    client: Client,
) -> Result<Identity, Cause>
    requires { IsShort client }
    ensures made { Answers (Gives (identity_of context.now credentials.now env.now client)) result }
    ensures short { IfOk result (λ identity. IsShortIdentity identity) }
{
    let asker = asker_of(alloc, context, credentials, env, &client)?;
    Ok(Identity { asker, client })
}

/// Returns the client of these credentials, and the asker that speaks for it.
#[tactic(auto, unfolding(crate::specs::Beginnings::NamesIdentity))]
fn identity_of(
    alloc: Global,
    context: &Kerberos,
    credentials: &CredentialsBuffers,
    env: &Env,
) -> Result<Identity, Cause>
    ensures step { Answers (NamesIdentity context.now credentials.now env.now) result }
    ensures short { IfOk result (λ identity. IsShortIdentity identity) }
{
    let host = &context.config.client_computer_name;
    let client = client_of(alloc, credentials, host, env)?;
    with_asker(alloc, context, credentials, env, client)
}

/// Returns the identity of the credentials. Fails with `NoIdentity` if there are none.
#[tactic(auto, unfolding(crate::specs::Beginnings::Identifies))]
fn identify(alloc: Global, context: &Kerberos, options: &InitOptions) -> Result<Identity, Cause>
    ensures step { Answers (Identifies context.now options.now) result }
    ensures short { IfOk result (λ identity. IsShortIdentity identity) }
{
    match &options.credentials {
        None => Err(Cause::NoIdentity),
        Some(credentials) => identity_of(alloc, context, credentials, &options.env),
    }
}

/// Returns the options of the exchange with the service.
fn errand_of(
    alloc: Global,
    context: &Kerberos,
    options: &InitOptions,
    user_to_user: bool,
    mechanism: Octets,
) -> Result<Errand, OutOfMemory>
    requires named { 0 < length mechanism }
    requires mechanism { length mechanism ≤ 2 ^ 24 }
    ensures made { IfOk result (λ errand. errand ≡ errand_of context.now options.now user_to_user mechanism) }
    ensures can { IfOk result (λ errand. CanGo errand) }
{
    let initiator = initiator_of(alloc, context, user_to_user, options.flags)?;
    let bindings = short_bindings(alloc, &options.channel_bindings)?;
    Ok(Errand {
        initiator,
        bindings,
        mechanism,
    })
}

/// Returns the request to ticket-granting services.
fn wanted_of(
    alloc: Global,
    options: &InitOptions,
    target: Name,
    initiator: &Initiator,
) -> Result<Wanted, OutOfMemory>
    ensures made { IfOk result (λ wanted. wanted ≡ wanted_of options.now target initiator.now) }
    ensures short { IfOk result (λ wanted. IfSome wanted.channel_bindings AreShortBindings) }
{
    let channel_bindings = short_bindings(alloc, &options.channel_bindings)?;
    Ok(Wanted {
        target,
        flags: exchange_flags(initiator),
        channel_bindings,
    })
}

/// Returns an initiator on its way to the ticket.
fn seeker_of(
    alloc: Global,
    context: &Kerberos,
    options: &InitOptions,
    target: Name,
    tgt: ServiceTgt,
    identity: Identity,
) -> Result<Initiation, Cause>
    requires target { length target ≤ 2 ^ 24 }
    requires tgt { IsShortTgt tgt }
    requires identity { IsShortIdentity identity }
    ensures step { Answers (Gives (initiations.Seeks (seeker_of context.now options.now target tgt identity))) result }
    ensures can { IfOk result (λ initiation. CanBegin initiation) }
{
    let ServiceTgt {
        ticket,
        user_to_user,
        mechanism,
    } = tgt;
    let identity = boxed(alloc, identity)?;
    let ticket = boxed(alloc, ticket)?;
    let errand = errand_of(alloc, context, options, user_to_user, mechanism)?;
    let errand = boxed(alloc, errand)?;
    let wanted = wanted_of(alloc, options, target, &errand.initiator)?;
    let Identity { asker, client } = Box::into_inner(identity);
    Ok(Initiation::Seeks(Seeker {
        asker,
        client,
        wanted,
        tgt: Box::into_inner(ticket),
        errand: Box::into_inner(errand),
    }))
}

/// Begins to fetch a ticket.
#[tactic(auto, unfolding(crate::specs::Beginnings::SeeksTicket))]
fn seek(alloc: Global, context: &Kerberos, options: &InitOptions) -> Result<Initiation, Cause>
    ensures step { Answers (SeeksTicket context.now options.now) result }
    ensures can { IfOk result (λ initiation. CanBegin initiation) }
{
    let target = target_in(alloc, &options.target)?;
    let tgt = take_tgt(alloc, options.flags, &options.token)?;
    let identity = identify(alloc, context, options)?;
    seeker_of(alloc, context, options, target, tgt, identity)
}

fn requested(
    alloc: Global,
    context: &Kerberos,
    flags: ClientRequestFlags,
    target: &Name,
) -> Result<Initiation, Cause>
    requires target { length target.now ≤ 2 ^ 24 }
    ensures step { Answers (Gives (initiations.Requests (initiator_of context.now true flags) (tgt_token (is_bare flags) target.now))) result }
    ensures can { IfOk result (λ initiation. CanBegin initiation) }
{
    let token = tgt_token(alloc, flags, target)?;
    let initiator = initiator_of(alloc, context, true, flags)?;
    Ok(Initiation::Requests(initiator, token))
}

/// Begins to ask the service for the service's own ticket.
#[tactic(auto, unfolding(crate::specs::Beginnings::RequestsTgt))]
fn request(alloc: Global, context: &Kerberos, options: &InitOptions) -> Result<Initiation, Cause>
    ensures step { Answers (RequestsTgt context.now options.now) result }
    ensures can { IfOk result (λ initiation. CanBegin initiation) }
{
    let target = target_in(alloc, &options.target)?;
    requested(alloc, context, options.flags, &target)
}

/// Begins an initiation before the exchange.
fn begin_new(alloc: Global, context: &Kerberos, options: &InitOptions) -> Result<Initiation, Cause>
    ensures step { Answers (BeginsNew (has_flag options.now.flags.0 use_session_key) context.now options.now) result }
    ensures can { IfOk result (λ initiation. CanBegin initiation) }
{
    if options.flags.contains(ClientRequestFlags::USE_SESSION_KEY) {
        request(alloc, context, options)
    } else {
        seek(alloc, context, options)
    }
}

/// Begins to take the service's answer.
fn hear(alloc: Global, context: &Kerberos, options: &InitOptions) -> Result<Initiation, Cause>
    ensures step { Answers (Gives (initiations.Hears (initiator_of context.now context.now.krb5_user_to_user options.now.flags) options.now.token)) result }
    ensures can { IfOk result (λ initiation. CanBegin initiation) }
{
    let token = options.token.copy(alloc)?;
    let initiator = initiator_of(alloc, context, context.krb5_user_to_user, options.flags)?;
    Ok(Initiation::Hears(initiator, token))
}

/// Returns what an initiator begins next, by the state of its context, without running it. Fails as
/// [`initialize_security_context`](crate::initialize_security_context).
pub fn begin_initiation(
    alloc: Global,
    context: &Kerberos,
    options: &InitOptions,
) -> Result<Initiation, Cause>
    ensures step { Answers (BeginsInitiation context.now options.now) result }
    ensures can { IfOk result (λ initiation. CanBegin initiation) }
{
    match context.state {
        KerberosState::TgtExchange => begin_new(alloc, context, options),
        KerberosState::Preauthentication => seek(alloc, context, options),
        KerberosState::ApExchange => hear(alloc, context, options),
        KerberosState::Final => Err(Cause::Sequence),
    }
}
