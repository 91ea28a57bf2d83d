//! The two sides of a context: the flags and the usages of their messages.

ghost use Rattle.std.specs.Prelude.{◌≡◌};
ghost use Rattle.std.specs.Result.{result_map_both};
ghost use Rattle.sspi_core.specs.Checks.{Holds, Takes};
ghost use Rattle.sspi_core.specs.declared.cause.Cause.TheVariants as causes;
ghost use Rattle.krb_context.specs.Unwraps.{has_key_size};
ghost use Rattle.krb_context.specs.Parties.{ready_key, seal_usage, sign_usage, has_subkey_flag, seal_flags, sign_flags, own_seal_flags, own_sign_flags};

use crate::context::Kerberos;
use crate::params::EncryptionParams;
use crate::rules::Rules;
use crate::state::KerberosState;
use krb_der::Octets;
use krb_messages::constants::{
    ACCEPTOR_SEAL_USAGE, ACCEPTOR_SIGN_USAGE, INITIATOR_SEAL_USAGE, INITIATOR_SIGN_USAGE,
};
use sspi_core::{Cause, hold};

/// The key of messages, once the exchange is over.
pub(crate) fn ready_key(state: KerberosState, params: &EncryptionParams) -> Result<&Octets, Cause>
    ensures { Takes causes.Sequence (ready_key state params.now) (result_map_both (λ key. key.now) (λ e. e) result) }
{
    if !state.is_final() {
        return Err(Cause::Sequence);
    }
    match params.key() {
        Some(key) => Ok(key),
        None => Err(Cause::Sequence),
    }
}

pub(crate) fn check_key_size(params: &EncryptionParams, key: &Octets) -> Result<(), Cause>
    ensures { Holds causes.KeyLength (has_key_size params.now key.now) result }
{
    hold(
        key.as_slice().len() == params.suite().key_size(),
        Cause::KeyLength,
    )
}

/// The usage of a side's wrap tokens.
pub(crate) fn seal_usage(acceptor: bool) -> u32
    ensures { result ≡ seal_usage acceptor }
{
    if acceptor {
        ACCEPTOR_SEAL_USAGE
    } else {
        INITIATOR_SEAL_USAGE
    }
}

/// The usage of a side's MIC tokens.
pub(crate) fn sign_usage(acceptor: bool) -> u32
    ensures { result ≡ sign_usage acceptor }
{
    if acceptor {
        ACCEPTOR_SIGN_USAGE
    } else {
        INITIATOR_SIGN_USAGE
    }
}

/// Returns whether tokens say that the acceptor chose the key.
fn has_subkey_flag(rules: Rules, params: &EncryptionParams) -> bool
    ensures { result ≡ has_subkey_flag rules params.now }
{
    !rules.has(Rules::SUBKEY_FLAG_BY_ORIGIN) || params.acceptor_subkey
}

/// The flags of a side's sealed messages.
fn seal_flags(subkey: bool, acceptor: bool) -> u8
    ensures { result ≡ seal_flags subkey acceptor }
{
    match (acceptor, subkey) {
        (true, true) => 7,
        (true, false) => 3,
        (false, true) => 6,
        (false, false) => 2,
    }
}

/// The flags of a side's MIC tokens.
fn sign_flags(subkey: bool, acceptor: bool) -> u8
    ensures { result ≡ sign_flags subkey acceptor }
{
    match (acceptor, subkey) {
        (true, true) => 5,
        (true, false) => 1,
        (false, true) => 4,
        (false, false) => 0,
    }
}

impl Kerberos {
    /// The flags of this end's sealed messages.
    pub(crate) fn own_seal_flags(&self) -> u8
        ensures { result ≡ own_seal_flags self.now }
    {
        let subkey = has_subkey_flag(self.rules, &self.encryption_params);
        seal_flags(subkey, self.server.is_some())
    }

    /// The flags of what this end sends in the clear, and of its MIC tokens.
    pub(crate) fn own_sign_flags(&self) -> u8
        ensures { result ≡ own_sign_flags self.now }
    {
        let subkey = has_subkey_flag(self.rules, &self.encryption_params);
        sign_flags(subkey, self.server.is_some())
    }
}
