//! The context of an initiator.

ghost use Rattle.std.specs.Prelude.{◌≡◌};
ghost use Rattle.krb_ap.specs.Initiators.{is_bare, exchange_flags, settled_number, is_one_way, keeps_subkey};

use bitflags::Flags;
use krb_context::{EncryptionParams, Rules};
use krb_der::Text;
use sspi_core::ClientRequestFlags;

/// An initiator's context, as an exchange begins with it, and what its caller asks for. A step never changes it.
#[derive(Drop)]
pub struct Initiator {
    pub params: EncryptionParams,
    /// The context's sequence number.
    pub number: u32,
    pub realm: Option<Text>,
    pub user_to_user: bool,
    pub flags: ClientRequestFlags,
    /// The rules that the context goes by.
    pub rules: Rules,
    /// The moment of the last authenticator that the initiator showed, in microseconds since 1970.
    pub asked_at: Option<u64>,
}

/// Returns whether tokens are bare: DCE style.
pub(crate) fn is_bare(flags: ClientRequestFlags) -> bool
    ensures { result ≡ is_bare flags }
{
    flags.contains(ClientRequestFlags::USE_DCE_STYLE)
}

/// Returns the flags of the exchange: those of the caller, and in user-to-user also the use of a session key.
pub fn exchange_flags(initiator: &Initiator) -> ClientRequestFlags
    ensures { result.0 ≡ exchange_flags initiator.now }
{
    if initiator.user_to_user {
        initiator.flags.union(ClientRequestFlags::USE_SESSION_KEY)
    } else {
        initiator.flags
    }
}

/// Returns this end's sequence number after the exchange.
pub(crate) fn settled_number(initiator: &Initiator) -> u32
    ensures { result ≡ settled_number initiator.now }
{
    let rules = initiator.rules;
    if rules.has(Rules::FIRST_NUMBER_AS_SHOWN) {
        initiator.number
    } else {
        initiator.number.wrapping_add(1)
    }
}

/// Returns whether no answer is asked for, and none is awaited.
pub(crate) fn is_one_way(initiator: &Initiator) -> bool
    ensures { result ≡ is_one_way initiator.now }
{
    let rules = initiator.rules;
    rules.has(Rules::ONE_WAY_IS_SETTLED)
        && !exchange_flags(initiator).contains(ClientRequestFlags::MUTUAL_AUTH)
}

/// Returns whether the subkey of the authenticator is kept.
pub(crate) fn keeps_subkey(initiator: &Initiator) -> bool
    ensures { result ≡ keeps_subkey initiator.now }
{
    let rules = initiator.rules;
    rules.has(Rules::AP_REP_WITHOUT_SUBKEY) || is_one_way(initiator)
}
