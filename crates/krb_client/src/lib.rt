//! The client: all calls and types that the author of a Kerberos client needs. There is no code in this crate.
//!
//! [`initialize_security_context`] begins the exchange that ends with a token for a service and a context, [`change_password`] the
//! one that changes a password, and [`AsExchange`] is the AS exchange alone. Each returns a run, a [`Task`], which opens no socket:
//! it yields requests, and is resumed with what the network brought. A [`Generator`] runs it, one step after another or over a
//! [`NetworkClient`]:
//!
//! ```
//! let mut context = Kerberos::new_client_from_config(config, number);
//! context.rules = Rules::rfc(); // without rules a recorded log-in can be played back to it
//! let run = initialize_security_context(alloc, &context, options)?; // `options` name the service and the credentials
//! let done: InitDone = Generator::new(run).resolve_with_client(&mut network, draws)?;
//! context.settle(done.change); // and `done.token` goes to the service
//! ```
//!
//! The runs are made of these calls: the `generate_*` make messages, and the `extract_*` read keys, numbers and salts from replies.
#![tactic(auto)]

pub use krb_ap::generate_ap_rep;
pub use krb_as::{AsDone, AsExchange, InitDone};
pub use krb_authenticators::{
    AuthenticatorChecksumExtension, ChecksumOptions, ChecksumValues, EncKey,
    GenerateAuthenticatorOptions, GenerateTgsReqOptions, generate_ap_req, generate_authenticator,
    generate_krb_priv_request, generate_tgs_ap_req, generate_tgs_req,
};
pub use krb_initiator::{
    GeneratorInitSecurityContext, InitOptions, InitRun, initialize_security_context,
};
pub use krb_password_change::{
    ChangePassword, ChangePasswordRun, GeneratorChangePassword, change_password,
};
pub use krb_replies::{
    extract_encryption_params_from_as_rep, extract_salt_from_krb_error,
    extract_seq_number_from_ap_rep, extract_session_key_from_as_rep,
    extract_session_key_from_as_rep_with_key, extract_session_key_from_tgs_rep,
    extract_status_code_from_krb_priv_response, extract_sub_session_key_from_ap_rep,
    extract_tgt_ticket_with_oid, referral_target_realm,
};
pub use krb_requests::{
    GenerateAsPaDataOptions, GenerateAsReqOptions, GenerateKeytabPaDataOptions, generate_as_req,
    generate_as_req_kdc_body, generate_pa_datas_for_as_req, generate_pa_datas_for_as_req_with_key,
    generate_tgt_req, get_mech_list, name_of,
};

// Types that a client also names, so that its imports come from here alone.
pub use bitflags::Flags;
pub use krb_conf::{ConfigFile, Env, KerberosConfig};
pub use krb_context::{
    ApOptions, ContextChange, EncryptionParams, GssFlags, KdcOptions, Kerberos, KerberosState,
    ProtocolConfig, Rules,
};
pub use krb_crypto::CipherSuite;
pub use krb_der::{Asn1, IntegerAsn1, Items, Name, Octets, OutOfMemory, Text, Time, TryCopy};
pub use krb_exchange::{
    ApMessage, AsRep, AsReq, KdcRep, KdcReqBody, KrbError, KrbPriv, KrbPrivMessage, KrbResult,
    PaData, TgsRep, TgsReq, TgtRep, TgtReq, read_result,
};
pub use krb_messages::{ApRep, ApReq, Authenticator, Oid, PrincipalName, Ticket};
pub use sspi_core::{
    AuthIdentity, AuthIdentityBuffers, BufferType, Cause, ChannelBindings, ClientRequestFlags,
    ContextNames, ContextSizes, Credentials, CredentialsBuffers, Draw, Error, ErrorKind,
    KeytabIdentity, MAX_MOMENT, Message, NetworkProtocol, PackageInfo, Part, Secret,
    SecurityBufferFlags, SecurityBufferRef, SecurityStatus, SessionKeys, Username, UsernameError,
    UsernameParts,
};
pub use sspi_generator::{
    Done, Generator, GeneratorState, MemClient, NetFault, NetworkClient, NetworkRequest, Resumable,
    Task,
};
