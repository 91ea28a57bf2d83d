//! The causes of refusals, and the kind that each belongs to.

ghost use Rattle.std.specs.Prelude.{◌≡◌, Some};
ghost use Rattle.sspi_core.specs.Kinds.{kind_of};
ghost use Rattle.sspi_core.specs.Printed.{cause_name, cause_text};
ghost use Rattle.sspi_core.specs.declared.cause.Cause.TheVariants as causes;

use crate::kdc_code::map_keb_error_code_to_sspi_error;
use crate::kind::ErrorKind;
use krb_der::OutOfMemory;
use std::alloc::{AllocError, AllocFailed};
use std::fmt;

/// The exact reason of a failure.
#[derive(Clone, Copy, Debug, PartialEq, Eq, Hash)]
pub enum Cause {
    /// Memory ran out.
    Memory,
    /// The moment of an event is out of range.
    Moment,
    /// There is no connection with this number, or it is taken.
    Connection,
    /// The context has the other role.
    Role,
    /// The state of the context does not allow this call.
    Sequence,
    /// The octets are not in the grammar of what is to be read.
    Shape,
    /// There is no key for the service that the ticket names.
    NoServiceKey,
    /// An encryption type other than 17 and 18 (RFC 3962 section 7).
    Etype,
    /// A key does not have the length of its encryption type.
    KeyLength,
    /// A sealed text has too few octets.
    Short,
    /// A checksum does not fit, or no plain text is sealed to these octets.
    Altered,
    /// The decrypted bytes are not in the grammar of their record.
    Inner,
    /// The client of the ticket is not the client of the authenticator (RFC 4120 section 3.2.3).
    Names,
    /// The authenticator is too far from the clock (RFC 4120 section 3.2.3).
    Skew,
    /// The ticket is not yet valid.
    NotYet,
    /// The ticket has expired.
    Expired,
    /// This authenticator was admitted before.
    Replayed,
    /// The name of the client is no user name.
    ClientName,
    /// The options of an AP-REQ are not four octets, or one is set that is not known.
    ApOptions,
    /// The subkey of an authenticator does not fit its type.
    SubKey,
    /// The acceptor has no user to get a ticket for.
    Credentials,
    /// A TGT-REQ names another service.
    ServerName,
    /// The user of the acceptor has a key and no password.
    KeytabUser,
    /// A name has a character past ASCII.
    NotAscii,
    /// An AP-REP or a reply of the KDC cannot be opened.
    Reply,
    /// A message lacks its sequence number.
    NoNumber,
    /// The sequence number is not the one that is awaited.
    Number,
    /// There is no subkey; where a MIC token is to be made, none in the context.
    NoSubKey,
    /// There is no target name.
    NoTarget,
    /// The target name is not a service and a host with a slash between.
    Target,
    /// There is no identity.
    NoIdentity,
    /// There is no address of a KDC for the realm.
    NoKdc,
    /// The address of the KDC has a scheme that is not served.
    Scheme,
    /// The network failed, with this code of the caller.
    Network(u32),
    /// A reply of the KDC has under four octets.
    ReplyShort,
    /// The KDC answers the first request with an AS-REP, without pre-authentication.
    EarlyAsRep,
    /// The KDC answers a KRB-ERROR with this code (RFC 4120 section 7.5.9).
    Kdc(u32),
    /// An ETYPE-INFO2 has no entry (RFC 4120 section 5.2.7.5).
    EtypeEntry,
    /// The entry of an ETYPE-INFO2 has no salt.
    Salt,
    /// Too many referrals.
    Hops,
    /// A referral leads to the realm that it comes from.
    SameRealm,
    /// The address of the KDC takes no port.
    Port,
    /// A reply of the KDC does not have the nonce of the request (RFC 4120 sections 3.1.5 and 3.3.4).
    Nonce,
    /// A reply of the KDC is for another client or another service than the request (RFC 4120 sections 3.1.5 and 3.3.4).
    ReplyNames,
    /// The ticket of a reply is not valid at this moment, or an AP-REP does not have the time of the authenticator (RFC 4120 sections
    /// 3.1.5, 3.2.5 and 3.3.4).
    ReplyTime,
    /// A ticket came through further realms, and no KDC checked them (RFC 4120 section 2.7).
    Transited,
    /// The answer to a password change has no result code (RFC 3244 section 2).
    UserData,
    /// The password was not changed, with this result code (RFC 3244 section 2).
    ResultCode(u16),
    /// The buffers of a message are not those that the call needs.
    Buffers,
    /// The octets are longer than the limit of their buffer.
    TooSmall,
    /// The header of a token is too short or not that of its form (RFC 4121 section 4.2.6).
    Header,
    /// The token was sent by this side (reflected; RFC 4121 section 4.2.2).
    Direction,
    /// The extra count of a sealed token is not that of the context (RFC 4121 section 4.2.3).
    ExtraCount,
    /// The text is longer than the limit of the data buffer.
    Room,
    /// A message is too old to be checked for duplication.
    Old,
    /// A message was opened before.
    Repeated,
    /// A MIC token has the flag of a sealed one (RFC 4121 section 4.2.2).
    Sealed,
    /// The context has no key.
    NoKey,
    /// A checksum is too short for channel bindings.
    Checksum,
    /// A part of the channel bindings lies outside them.
    Bindings,
    /// The user of the context is no user name.
    BadUser,
    /// The call is never served.
    Unsupported,
    /// The task waits for a reply, and nobody sends.
    Suspended,
}

impl Cause {
    /// The kind that the cause belongs to, save at the two places that `Place` names.
    pub fn kind(self) -> ErrorKind
        ensures { result ≡ kind_of self }
    {
        match self {
            Cause::Memory => ErrorKind::OutOfMemory,
            Cause::Moment
            | Cause::Role
            | Cause::Etype
            | Cause::KeyLength
            | Cause::SubKey
            | Cause::Target
            | Cause::Scheme
            | Cause::EtypeEntry
            | Cause::Salt
            | Cause::Port
            | Cause::Checksum
            | Cause::BadUser => ErrorKind::InvalidParameter,
            Cause::Connection => ErrorKind::InvalidHandle,
            Cause::Sequence | Cause::Old | Cause::Repeated => ErrorKind::OutOfSequence,
            Cause::Shape
            | Cause::NoServiceKey
            | Cause::Inner
            | Cause::Names
            | Cause::NotYet
            | Cause::Expired
            | Cause::Replayed
            | Cause::ClientName
            | Cause::ApOptions
            | Cause::ServerName
            | Cause::NoNumber
            | Cause::Number
            | Cause::NoSubKey
            | Cause::EarlyAsRep
            | Cause::UserData
            | Cause::Buffers
            | Cause::Header
            | Cause::Direction
            | Cause::ExtraCount
            | Cause::Sealed
            | Cause::Nonce
            | Cause::ReplyNames
            | Cause::Transited
            | Cause::Bindings => ErrorKind::InvalidToken,
            Cause::Short | Cause::Reply | Cause::Room | Cause::NoKey => ErrorKind::DecryptFailure,
            Cause::Altered => ErrorKind::MessageAltered,
            Cause::Skew | Cause::ReplyTime => ErrorKind::TimeSkew,
            Cause::Credentials => ErrorKind::IncompleteCredentials,
            Cause::KeytabUser => ErrorKind::UnsupportedPreAuth,
            Cause::NotAscii | Cause::ReplyShort => ErrorKind::InternalError,
            Cause::NoTarget => ErrorKind::NoCredentials,
            Cause::NoIdentity | Cause::ResultCode(_) => ErrorKind::WrongCredentialHandle,
            Cause::NoKdc | Cause::Network(_) | Cause::Hops | Cause::SameRealm =>
                ErrorKind::NoAuthenticatingAuthority,
            Cause::TooSmall => ErrorKind::BufferTooSmall,
            Cause::Unsupported | Cause::Suspended => ErrorKind::UnsupportedFunction,
            Cause::Kdc(code) => map_keb_error_code_to_sspi_error(code),
        }
    }

    /// The name of the cause, as it is printed, without a number.
    pub fn name(self) -> &'static str
        ensures { result.now ≡ cause_name self }
    {
        match self {
            Cause::Memory => "Memory",
            Cause::Moment => "Moment",
            Cause::Connection => "Connection",
            Cause::Role => "Role",
            Cause::Sequence => "Sequence",
            Cause::Shape => "Shape",
            Cause::NoServiceKey => "NoServiceKey",
            Cause::Etype => "Etype",
            Cause::KeyLength => "KeyLength",
            Cause::Short => "Short",
            Cause::Altered => "Altered",
            Cause::Inner => "Inner",
            Cause::Names => "Names",
            Cause::Skew => "Skew",
            Cause::NotYet => "NotYet",
            Cause::Expired => "Expired",
            Cause::Replayed => "Replayed",
            Cause::ClientName => "ClientName",
            Cause::ApOptions => "ApOptions",
            Cause::SubKey => "SubKey",
            Cause::Credentials => "Credentials",
            Cause::ServerName => "ServerName",
            Cause::KeytabUser => "KeytabUser",
            Cause::NotAscii => "NotAscii",
            Cause::Reply => "Reply",
            Cause::NoNumber => "NoNumber",
            Cause::Number => "Number",
            Cause::NoSubKey => "NoSubKey",
            Cause::NoTarget => "NoTarget",
            Cause::Target => "Target",
            Cause::NoIdentity => "NoIdentity",
            Cause::NoKdc => "NoKdc",
            Cause::Scheme => "Scheme",
            Cause::Network(_) => "Network",
            Cause::ReplyShort => "ReplyShort",
            Cause::EarlyAsRep => "EarlyAsRep",
            Cause::Kdc(_) => "Kdc",
            Cause::EtypeEntry => "EtypeEntry",
            Cause::Salt => "Salt",
            Cause::Hops => "Hops",
            Cause::SameRealm => "SameRealm",
            Cause::Port => "Port",
            Cause::Nonce => "Nonce",
            Cause::ReplyNames => "ReplyNames",
            Cause::ReplyTime => "ReplyTime",
            Cause::Transited => "Transited",
            Cause::UserData => "UserData",
            Cause::ResultCode(_) => "ResultCode",
            Cause::Buffers => "Buffers",
            Cause::TooSmall => "TooSmall",
            Cause::Header => "Header",
            Cause::Direction => "Direction",
            Cause::ExtraCount => "ExtraCount",
            Cause::Room => "Room",
            Cause::Old => "Old",
            Cause::Repeated => "Repeated",
            Cause::Sealed => "Sealed",
            Cause::NoKey => "NoKey",
            Cause::Checksum => "Checksum",
            Cause::Bindings => "Bindings",
            Cause::BadUser => "BadUser",
            Cause::Unsupported => "Unsupported",
            Cause::Suspended => "Suspended",
        }
    }
}

impl fmt::Display for Cause {
    ghost output = { λ cause. Some (cause_text cause) };

    fn fmt<W: fmt::Write>(&self, f: &mut fmt::Formatter<W>) -> fmt::Result {
        let name = self.name();
        match self {
            Cause::Network(code) | Cause::Kdc(code) => write!(f, "{name} {code}"),
            Cause::ResultCode(code) => write!(f, "{name} {code}"),
            _ => write!(f, "{name}"),
        }
    }
}

impl From<OutOfMemory> for Cause {
    ghost from_gives = { λ _ cause. cause ≡ causes.Memory };

    fn from(_error: OutOfMemory) -> Cause {
        Cause::Memory
    }
}

impl From<AllocError> for Cause {
    ghost from_gives = { λ _ cause. cause ≡ causes.Memory };

    fn from(_error: AllocError) -> Cause {
        Cause::Memory
    }
}

impl<T: Drop> From<AllocFailed<T>> for Cause {
    ghost from_gives = { λ _ cause. cause ≡ causes.Memory };

    fn from(_failed: AllocFailed<T>) -> Cause {
        Cause::Memory
    }
}
