//! The checks after the gate, which are made before it is asked.

ghost use Rattle.std.specs.Prelude.{◌≡◌, IfOk};
ghost use Rattle.sspi_core.specs.declared.cause.Cause.TheVariants as causes;
ghost use Rattle.sspi_core.specs.Checks.{Holds};
ghost use Rattle.krb_admission.specs.Clients.{user_of};
ghost use Rattle.krb_admission.specs.Complete.{is_known_options, is_mutual, has_good_subkey, is_good_key, Completes};

use crate::client::{is_known_client, user_of};
use crate::request::Request;
use krb_context::Rules;
use krb_der::{Bits, OutOfMemory};
use krb_messages::EncryptionKey;
use krb_replies::suite_of;
use sspi_core::{Cause, Username, hold};
use std::alloc::Global;

/// Returns whether the options have four octets and no unknown bit.
fn is_known_options(options: &Bits) -> bool
    ensures { result ≡ is_known_options options.now }
{
    match options.octets.as_slice() {
        [first, 0, 0, 0] => *first & 0x9f == 0,
        _ => false,
    }
}

/// Returns whether the options ask for an AP-REP.
pub(crate) fn is_mutual(options: &Bits) -> bool
    ensures { result ≡ is_mutual options.now }
{
    match options.octets.as_slice() {
        [first, ..] => *first & 0x20 != 0,
        [] => false,
    }
}

/// Returns whether the key is of a known type, and as long as its type's keys are.
fn is_good_key(key: &EncryptionKey) -> bool
    ensures { result ≡ is_good_key key.now }
{
    match suite_of(&key.key_type) {
        Some(suite) => key.key_value.as_slice().len() == suite.key_size(),
        None => false,
    }
}

fn has_good_subkey(request: &Request) -> bool
    ensures { result ≡ has_good_subkey request.now }
{
    if is_mutual(&request.message.ap_options) {
        return true;
    }
    match &request.authenticator.subkey {
        Some(key) => is_good_key(key),
        None => true,
    }
}

fn check_options(options: &Bits) -> Result<(), Cause>
    ensures { Holds causes.ApOptions (is_known_options options.now) result }
{
    hold(is_known_options(options), Cause::ApOptions)
}

fn check_subkey(request: &Request) -> Result<(), Cause>
    ensures { Holds causes.SubKey (has_good_subkey request.now) result }
{
    hold(has_good_subkey(request), Cause::SubKey)
}

fn check_client(is_known: bool) -> Result<(), Cause>
    ensures { Holds causes.ClientName is_known result }
{
    hold(is_known, Cause::ClientName)
}

/// The checks after the gate, of a client with this user name.
fn completed(
    rules: Rules,
    user: Option<Username>,
    request: &Request,
) -> Result<Option<Username>, Cause>
    requires { user ≡ user_of rules request.now.authenticator.cname request.now.authenticator.crealm }
    ensures { Completes rules request.now result }
{
    check_client(is_known_client(rules, &request.authenticator.cname, &user))?;
    check_options(&request.message.ap_options)?;
    check_subkey(request)?;
    Ok(user)
}

/// Makes the checks after the gate in advance, and returns their result.
pub(crate) fn complete(
    alloc: Global,
    rules: Rules,
    request: &Request,
) -> Result<Result<Option<Username>, Cause>, OutOfMemory>
    ensures { IfOk result (Completes rules request.now) }
{
    let authenticator = &request.authenticator;
    let user = user_of(alloc, rules, &authenticator.cname, &authenticator.crealm)?;
    Ok(completed(rules, user, request))
}
