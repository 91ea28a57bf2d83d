//! The change of the context by the service's answer.

ghost use Rattle.std.specs.Prelude.{◌≡◌, IfOk, Some};
ghost use Rattle.krb_ap.specs.Answered.{established};

use crate::initiator::Initiator;
use krb_context::{ContextChange, EncryptionParams, KerberosState};
use krb_der::{Octets, OutOfMemory, TryCopy};
use sspi_core::Secret;
use std::alloc::Global;

fn established_params(
    alloc: Global,
    params: &EncryptionParams,
    from_service: bool,
    subkey: Secret<Octets>,
    ec: u16,
) -> Result<EncryptionParams, OutOfMemory>
    ensures { IfOk result (λ made. made ≡ record params.now { sub_session_key = Some subkey; ec = ec; acceptor_subkey = from_service }) }
{
    let mut made = params.copy(alloc)?;
    made.sub_session_key = Some(subkey);
    made.ec = ec;
    made.acceptor_subkey = from_service;
    Ok(made)
}

/// Returns the change to an established context: `from_service` if the AP-REP brought the subkey, `ec` octets of EC in Wrap tokens,
/// and `number`, this end's sequence number.
pub(crate) fn established(
    alloc: Global,
    initiator: &Initiator,
    from_service: bool,
    subkey: Secret<Octets>,
    ec: u16,
    number: u32,
) -> Result<ContextChange, OutOfMemory>
    ensures { IfOk result (λ change. change ≡ established initiator.now from_service subkey ec number) }
{
    let realm = initiator.realm.copy(alloc)?;
    let encryption_params = established_params(alloc, &initiator.params, from_service, subkey, ec)?;
    Ok(ContextChange {
        state: KerberosState::Final,
        realm,
        encryption_params,
        seq_number: number,
        krb5_user_to_user: initiator.user_to_user,
        asked_at: initiator.asked_at,
        ticket_decryption_key: None,
    })
}
