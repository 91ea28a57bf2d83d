//! The keys of an AS exchange: the client's, and the one that an AS-REP brings.

ghost use Rattle.std.specs.Prelude.{◌≡◌, true};
ghost use Rattle.krb_crypto.specs.Suite.{suite_of_etype};
ghost use Rattle.sspi_core.specs.Checks.{Answers};
ghost use Rattle.krb_replies.specs.Salts.{TellsEtype};
ghost use Rattle.krb_replies.specs.Keys.{BringsFirst};
ghost use Rattle.krb_as.specs.Askers.{client_key};
ghost use Rattle.krb_as.specs.ReplyKeys.{TakesReplyKey};

use crate::asker::Asker;
use crate::kdc::Kdc;
use krb_context::Rules;
use krb_crypto::{CipherSuite, generate_key_from_password};
use krb_der::{Octets, Text};
use krb_exchange::{AsRep, KdcRep, KdcReqBody};
use krb_replies::{ReplyFacts, ReplyKey, key_in_as_rep, told_etype};
use sspi_core::{Cause, CredentialsBuffers, Secret};
use std::alloc::Global;

/// The second request of an AS exchange: the time is encrypted in it under the client's key.
#[derive(Drop)]
pub struct SealedTime {
    /// The KDC that the request was sent to.
    pub kdc: Kdc,
    /// The body of the request.
    pub body: KdcReqBody,
    /// The suite of the key.
    pub suite: CipherSuite,
    /// The salt of the key.
    pub salt: Text,
    /// The client's key. Most AS-REPs are encrypted under it too.
    pub key: Secret<Octets>,
}

/// A ticket that a KDC granted.
#[derive(Drop)]
pub struct Grant {
    /// The suite of the key.
    pub suite: CipherSuite,
    /// The session key of the ticket.
    pub key: Secret<Octets>,
    /// The facts that are encrypted next to the key.
    pub facts: ReplyFacts,
    /// The reply that brought the ticket.
    pub rep: KdcRep,
}

/// Returns the key that is encrypted under the key of the credentials.
fn brought_key(
    alloc: Global,
    rules: Rules,
    credentials: &CredentialsBuffers,
    suite: CipherSuite,
    salt: &Text,
    as_rep: &AsRep,
) -> Result<ReplyKey, Cause>
    ensures { Answers (BringsFirst rules suite (client_key suite salt.now credentials.now) as_rep.now) result }
{
    match credentials {
        CredentialsBuffers::AuthIdentity(identity) => {
            let password = identity.password.as_ref().as_str().as_bytes();
            let key = generate_key_from_password(suite, password, salt.as_str().as_bytes());
            key_in_as_rep(alloc, rules, suite, key.as_slice(), as_rep)
        }
        CredentialsBuffers::Keytab(identity) => {
            let key = identity.key.as_ref().as_slice();
            key_in_as_rep(alloc, rules, suite, key, as_rep)
        }
    }
}

/// Returns the number of the suite and the salt that an AS-REP names.
fn told_hint(alloc: Global, used: &Text, as_rep: &AsRep) -> Result<(u8, Text), Cause>
    ensures { Answers (TellsEtype used.now as_rep.now) result }
{
    told_etype(alloc, as_rep, used.as_str())
}

/// Returns the key that an AS-REP brings, by the suite and the salt in the hint.
fn told_key(
    alloc: Global,
    asker: &Asker,
    hint: &(u8, Text),
    as_rep: &AsRep,
) -> Result<ReplyKey, Cause>
    ensures { Answers (BringsFirst asker.now.rules (suite_of_etype hint.now.0)
        (client_key (suite_of_etype hint.now.0) hint.now.1 asker.now.credentials) as_rep.now) result }
{
    brought_key(
        alloc,
        asker.rules,
        &asker.credentials,
        CipherSuite::of_etype(hint.0),
        &hint.1,
        as_rep,
    )
}

/// Returns the key that an AS-REP brings. The key is encrypted under the key of the credentials with the suite and the salt that
/// the AS-REP names, and with the salt of the request if it names none.
///
/// Fails with `Shape`, `EtypeEntry`, `Salt` and `Etype` as `told_etype` does; with `KeyLength` if the key is a keytab's and
/// does not have the length of the suite's keys; with `Short` if the encrypted part has under 28 bytes; with `Altered` if it cannot
/// be decrypted under that key; with `Inner` if the decrypted bytes are no EncASRepPart, nor one with tag 26 if that is allowed; with
/// `Etype` if the key that it brings goes by its own suite, and that is not known.
#[tactic(auto, unfolding(crate::specs::ReplyKeys::TakesReplyKey))]
pub fn reply_key(
    alloc: Global,
    asker: &Asker,
    salt: &Text,
    as_rep: &AsRep,
) -> Result<ReplyKey, Cause>
    ensures { Answers (TakesReplyKey asker.now.rules asker.now.credentials salt.now as_rep.now) result }
{
    let hint = told_hint(alloc, salt, as_rep)?;
    told_key(alloc, asker, &hint, as_rep)
}

/// Returns whether the time was encrypted under the key with the suite and the salt in the hint.
fn is_kept(sealed: &SealedTime, hint: &(u8, Text)) -> bool
    ensures suite { result ≡ true → sealed.now.suite ≡ suite_of_etype hint.now.0 }
    ensures salt { result ≡ true → sealed.now.salt ≡ hint.now.1 }
{
    sealed.suite == CipherSuite::of_etype(hint.0) && sealed.salt.as_str() == hint.1.as_str()
}

/// Returns the key that an AS-REP brings, by the suite and the salt in the hint. Derives a password's key again only if these differ.
fn kept_or_told_key(
    alloc: Global,
    asker: &Asker,
    sealed: &SealedTime,
    hint: &(u8, Text),
    as_rep: &AsRep,
) -> Result<ReplyKey, Cause>
    requires { sealed.now.key ≡ client_key sealed.now.suite sealed.now.salt asker.now.credentials }
    ensures { Answers (BringsFirst asker.now.rules (suite_of_etype hint.now.0)
        (client_key (suite_of_etype hint.now.0) hint.now.1 asker.now.credentials) as_rep.now) result }
{
    if is_kept(sealed, hint) {
        let key = sealed.key.as_ref().as_slice();
        key_in_as_rep(alloc, asker.rules, sealed.suite, key, as_rep)
    } else {
        told_key(alloc, asker, hint, as_rep)
    }
}

/// Returns the key that `reply_key` returns, after a request with the encrypted time. Fails as `reply_key` does.
#[tactic(auto, unfolding(crate::specs::ReplyKeys::TakesReplyKey))]
pub(crate) fn kept_reply_key(
    alloc: Global,
    asker: &Asker,
    sealed: &SealedTime,
    as_rep: &AsRep,
) -> Result<ReplyKey, Cause>
    requires { sealed.now.key ≡ client_key sealed.now.suite sealed.now.salt asker.now.credentials }
    ensures { Answers (TakesReplyKey asker.now.rules asker.now.credentials sealed.now.salt as_rep.now) result }
{
    let hint = told_hint(alloc, &sealed.salt, as_rep)?;
    kept_or_told_key(alloc, asker, sealed, &hint, as_rep)
}
