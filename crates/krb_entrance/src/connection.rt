//! The connection of a client.

ghost use Rattle.std.specs.Prelude.{◌≡◌, IfOk};
ghost use Rattle.std.specs.Int.{from_be_bytes, w32};
ghost use Rattle.krb_context.specs.declared.server.ServerProperties.{ServerProperties};
ghost use Rattle.krb_entrance.specs.Connections.{WaitsAt, Waits, keyless};

use krb_der::{Blank, Copier};
use krb_server::{
    AdditionalServiceKeys, Draw, Kerberos, KerberosConfig, OutOfMemory, Rules, ServerProperties,
    Text,
};
use std::alloc::Global;

/// Returns properties of no name, with no key. The call allocates no memory.
fn nobody(alloc: Global) -> ServerProperties {
    ServerProperties {
        service_name: Blank::blank(alloc),
        user: None,
        client: None,
        max_time_skew: 0,
        ticket_decryption_key: None,
        additional_service_keys: AdditionalServiceKeys::empty(alloc),
    }
}

/// Returns a connection that waits for its client's token, with the rules of the RFCs and this first sequence number. Nothing is
/// copied.
fn numbered(
    alloc: Global,
    channel: Option<[u8; 16]>,
    number: [u8; 4],
) -> Result<Kerberos, OutOfMemory>
    ensures { IfOk result (λ connection. (own : ServerProperties) × WaitsAt own channel (from_be_bytes w32 number) connection) }
{
    let config = KerberosConfig {
        kdc_url: None,
        client_computer_name: Text::new(String::new(alloc)),
    };
    let mut connection = Kerberos::new_server_from_config(config, nobody(alloc), number)?;
    connection.rules = Rules::rfc();
    connection.channel = channel;
    Ok(connection)
}

/// Returns a connection that waits for its client's token, with the rules of the RFCs. Its first sequence number is drawn.
pub(crate) fn waiting(
    alloc: Global,
    channel: Option<[u8; 16]>,
    draw: &Draw,
) -> Result<Kerberos, OutOfMemory>
    ensures { IfOk result (λ connection. (own : ServerProperties) × Waits own channel draw.now connection) }
{
    numbered(alloc, channel, draw.octets::<4>(60))
}

/// Returns the service's name alone. No key is copied.
pub(crate) fn keyless(
    alloc: Global,
    properties: &ServerProperties,
) -> Result<ServerProperties, OutOfMemory>
    ensures { IfOk result (λ own. own ≡ keyless properties.now) }
{
    let mut copier = Copier::new(alloc);
    let own = ServerProperties {
        service_name: copier.copy(&properties.service_name),
        user: None,
        client: copier.copy(&properties.client),
        max_time_skew: properties.max_time_skew,
        ticket_decryption_key: None,
        additional_service_keys: AdditionalServiceKeys::empty(alloc),
    };
    copier.finish(own)
}
