//! The kinds of refusals.

ghost use Rattle.std.specs.Prelude.{◌≡◌, Some};
ghost use Rattle.sspi_core.specs.Printed.{kind_text};

use std::fmt;

/// The kind of a refusal. What exactly failed is its `Cause`.
#[derive(Clone, Copy, Debug, PartialEq, Eq, Hash)]
pub enum ErrorKind {
    /// A token or reply is malformed, or says what it may not say.
    InvalidToken,
    /// An argument, a key or a setting does not fit.
    InvalidParameter,
    /// There is no such connection, or there is one already.
    InvalidHandle,
    /// The call does not fit the state of the context, or a message is repeated or too old.
    OutOfSequence,
    /// A buffer has too little room.
    BufferTooSmall,
    /// A sealed text cannot be opened.
    DecryptFailure,
    /// The KDC cannot encrypt.
    EncryptFailure,
    /// A checksum does not fit.
    MessageAltered,
    /// The clocks are too far apart.
    TimeSkew,
    /// The ticket has expired.
    ContextExpired,
    /// Credentials that the call needs are not there.
    IncompleteCredentials,
    /// There are no credentials, or no target.
    NoCredentials,
    /// The KDC does not know the principal or refuses it.
    UnknownCredentials,
    /// The credentials do not serve this call.
    WrongCredentialHandle,
    /// This form of credentials cannot pre-authenticate here.
    UnsupportedPreAuth,
    /// No KDC can be found or reached.
    NoAuthenticatingAuthority,
    /// The KDC refuses the request.
    KdcInvalidRequest,
    /// The KDC's certificate is revoked.
    KdcCertRevoked,
    /// There is no key for the service.
    NoKerbKey,
    /// There is no ticket-granting ticket for the reply.
    NoTgtReply,
    /// Mutual authentication failed.
    MutualAuthFailed,
    /// The KDC's database has the principal more than once.
    TooManyPrincipals,
    /// The encryption type is not supported by the KDC.
    OperationNotSupported,
    /// The call is not offered.
    UnsupportedFunction,
    /// A fault inside this side or the other one.
    InternalError,
    /// A code that has no kind of its own.
    Unknown,
    /// Memory ran out.
    OutOfMemory,
}

impl ErrorKind {
    /// The name of the kind, as it is printed.
    pub fn name(self) -> &'static str
        ensures { result.now ≡ kind_text self }
    {
        match self {
            ErrorKind::InvalidToken => "InvalidToken",
            ErrorKind::InvalidParameter => "InvalidParameter",
            ErrorKind::InvalidHandle => "InvalidHandle",
            ErrorKind::OutOfSequence => "OutOfSequence",
            ErrorKind::BufferTooSmall => "BufferTooSmall",
            ErrorKind::DecryptFailure => "DecryptFailure",
            ErrorKind::EncryptFailure => "EncryptFailure",
            ErrorKind::MessageAltered => "MessageAltered",
            ErrorKind::TimeSkew => "TimeSkew",
            ErrorKind::ContextExpired => "ContextExpired",
            ErrorKind::IncompleteCredentials => "IncompleteCredentials",
            ErrorKind::NoCredentials => "NoCredentials",
            ErrorKind::UnknownCredentials => "UnknownCredentials",
            ErrorKind::WrongCredentialHandle => "WrongCredentialHandle",
            ErrorKind::UnsupportedPreAuth => "UnsupportedPreAuth",
            ErrorKind::NoAuthenticatingAuthority => "NoAuthenticatingAuthority",
            ErrorKind::KdcInvalidRequest => "KdcInvalidRequest",
            ErrorKind::KdcCertRevoked => "KdcCertRevoked",
            ErrorKind::NoKerbKey => "NoKerbKey",
            ErrorKind::NoTgtReply => "NoTgtReply",
            ErrorKind::MutualAuthFailed => "MutualAuthFailed",
            ErrorKind::TooManyPrincipals => "TooManyPrincipals",
            ErrorKind::OperationNotSupported => "OperationNotSupported",
            ErrorKind::UnsupportedFunction => "UnsupportedFunction",
            ErrorKind::InternalError => "InternalError",
            ErrorKind::Unknown => "Unknown",
            ErrorKind::OutOfMemory => "OutOfMemory",
        }
    }
}

impl fmt::Display for ErrorKind {
    ghost output = { λ kind. Some (kind_text kind) };

    fn fmt<W: fmt::Write>(&self, f: &mut fmt::Formatter<W>) -> fmt::Result {
        write!(f, "{}", self.name())
    }
}
