//! The acceptor: everything that a Kerberos server calls and names is here.
//!
//! [`accept_security_context`] judges a token of a client at the context of its connection, over one replay gate of all clients,
//! most often a [`ReplayBook`]. An AP-REQ is admitted or refused, as is the initiator's third leg in DCE style. A TGT-REQ, if one
//! may come, begins user-to-user: the answer is an [`AcceptRun`], which fetches the service's ticket, and no gate is asked.
//!
//! ```
//! let mut book = ReplayBook::new(alloc, 300)?; // one for all clients
//! let service = ServerProperties::new(alloc, &["host", "server.example.com"], None, 300, Some(key))?;
//! let mut context = Kerberos::new_server_from_config(config, service, number)?; // one for each connection
//! context.rules = Rules::rfc(); // it takes what the RFCs allow
//! let flags = ServerRequestFlags::empty();
//! match accept_security_context(alloc, &mut context, &mut book, token, flags, &env, &draw)? {
//!     Accepted::Done { token, .. } => token, // goes back to the client; `context` knows who it is, and opens its messages
//!     Accepted::Run(run) => ..,              // asks a KDC, by way of `Generator::new(Box::into_inner(run))`
//! }
//! ```
//!
//! The call also comes in two halves: [`judge`], which asks no gate, and [`admit`], which is short. They are for threads that share
//! a book under a lock, and for machines that share a store ([`TellingGate`]). `judge` returns a [`Judged`] with the client's whole
//! name.
//!
//! The ordered checks of an AP-REQ are in `krb_admission`, the run of user-to-user is in `krb_user_to_user`.
#![tactic(auto)]

mod accept;
mod halves;
pub mod laws;
mod tgt_req;

pub use accept::{Accepted, accept_security_context};
pub use halves::{admit, judge};
pub use krb_admission::{Answer, Judged, TicketTimes, client_upn, generate_ap_rep};
pub use krb_user_to_user::{
    AcceptRun, GeneratorAcceptSecurityContext, generate_tgt_rep, request_tgt,
};

// The other names that a server uses, so that all its imports come from this crate.
pub use bitflags::Flags;
pub use krb_as::InitDone;
pub use krb_conf::{ConfigFile, Env, KerberosConfig};
pub use krb_context::{
    AdditionalServiceKeys, ContextChange, EncryptionParams, Kerberos, KerberosServerConfig,
    KerberosState, ProtocolConfig, Rules, ServerProperties,
};
pub use krb_der::{Bits, IntegerAsn1, Items, Name, Octets, OutOfMemory, Text, Time, TryCopy};
pub use krb_exchange::{TgtRep, TgtReq};
pub use krb_messages::{ApRep, AuthorizationData, PrincipalName, Ticket};
pub use krb_replay::{Ask, CacheGate, Record, ReplayBook, ReplayGate, TellingGate, Verdict};
pub use sspi_core::{
    AuthIdentity, AuthIdentityBuffers, BufferType, Cause, ContextNames, ContextSizes,
    CredentialsBuffers, Draw, Error, ErrorKind, KeytabIdentity, MAX_MOMENT, Message,
    NetworkProtocol, PackageInfo, Part, Secret, SecurityBufferFlags, SecurityBufferRef,
    SecurityStatus, ServerRequestFlags, SessionKeys, Username, UsernameError, UsernameParts,
};
pub use sspi_generator::{
    Generator, GeneratorState, NetFault, NetworkClient, NetworkRequest, Resumable, Task,
};
