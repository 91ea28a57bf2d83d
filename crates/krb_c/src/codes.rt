//! Numbers of kinds and causes, as C has them: 0 is none, and a number that was given is never given to another.

ghost use Rattle.std.specs.Prelude.{◌≡◌, IfSome, IfNone};
ghost use Rattle.krb_c.specs.Calls.{HasNoKind, HasNoCause};
ghost use Rattle.krb_c.specs.Codes.{kind_code, cause_code, number_of};

use krb_entrance::{Cause, ErrorKind};

/// Returns the number of a kind.
pub(crate) fn kind_code(kind: ErrorKind) -> u32
    ensures { result ≡ kind_code kind }
{
    match kind {
        ErrorKind::InvalidToken => 1,
        ErrorKind::InvalidParameter => 2,
        ErrorKind::InvalidHandle => 3,
        ErrorKind::OutOfSequence => 4,
        ErrorKind::BufferTooSmall => 5,
        ErrorKind::DecryptFailure => 6,
        ErrorKind::EncryptFailure => 7,
        ErrorKind::MessageAltered => 8,
        ErrorKind::TimeSkew => 9,
        ErrorKind::ContextExpired => 10,
        ErrorKind::IncompleteCredentials => 11,
        ErrorKind::NoCredentials => 12,
        ErrorKind::UnknownCredentials => 13,
        ErrorKind::WrongCredentialHandle => 14,
        ErrorKind::UnsupportedPreAuth => 15,
        ErrorKind::NoAuthenticatingAuthority => 16,
        ErrorKind::KdcInvalidRequest => 17,
        ErrorKind::KdcCertRevoked => 18,
        ErrorKind::NoKerbKey => 19,
        ErrorKind::NoTgtReply => 20,
        ErrorKind::MutualAuthFailed => 21,
        ErrorKind::TooManyPrincipals => 22,
        ErrorKind::OperationNotSupported => 23,
        ErrorKind::UnsupportedFunction => 24,
        ErrorKind::InternalError => 25,
        ErrorKind::Unknown => 26,
        ErrorKind::OutOfMemory => 27,
    }
}

/// Returns the number of a cause.
pub(crate) fn cause_code(cause: Cause) -> u32
    ensures { result ≡ cause_code cause }
{
    match cause {
        Cause::Memory => 1,
        Cause::Moment => 2,
        Cause::Connection => 3,
        Cause::Role => 4,
        Cause::Sequence => 5,
        Cause::Shape => 6,
        Cause::NoServiceKey => 7,
        Cause::Etype => 8,
        Cause::KeyLength => 9,
        Cause::Short => 10,
        Cause::Altered => 11,
        Cause::Inner => 12,
        Cause::Names => 13,
        Cause::Skew => 14,
        Cause::NotYet => 15,
        Cause::Expired => 16,
        Cause::Replayed => 17,
        Cause::ClientName => 18,
        Cause::ApOptions => 19,
        Cause::SubKey => 20,
        Cause::Credentials => 21,
        Cause::ServerName => 22,
        Cause::KeytabUser => 23,
        Cause::NotAscii => 24,
        Cause::Reply => 25,
        Cause::NoNumber => 26,
        Cause::Number => 27,
        Cause::NoSubKey => 28,
        Cause::NoTarget => 29,
        Cause::Target => 30,
        Cause::NoIdentity => 31,
        Cause::NoKdc => 32,
        Cause::Scheme => 33,
        Cause::Network(_) => 34,
        Cause::ReplyShort => 35,
        Cause::EarlyAsRep => 36,
        Cause::Kdc(_) => 37,
        Cause::EtypeEntry => 38,
        Cause::Salt => 39,
        Cause::Hops => 40,
        Cause::SameRealm => 41,
        Cause::Port => 42,
        Cause::UserData => 43,
        Cause::ResultCode(_) => 44,
        Cause::Buffers => 45,
        Cause::TooSmall => 46,
        Cause::Header => 47,
        Cause::Direction => 48,
        Cause::ExtraCount => 49,
        Cause::Room => 50,
        Cause::Old => 51,
        Cause::Repeated => 52,
        Cause::Sealed => 53,
        Cause::NoKey => 54,
        Cause::Checksum => 55,
        Cause::Bindings => 56,
        Cause::BadUser => 57,
        Cause::Unsupported => 58,
        Cause::Suspended => 59,
        Cause::Nonce => 60,
        Cause::ReplyNames => 61,
        Cause::ReplyTime => 62,
        Cause::Transited => 63,
    }
}

/// Returns the number that a cause carries, and 0 if it has none.
pub(crate) fn number_of(cause: Cause) -> u32
    ensures { result ≡ number_of cause }
{
    match cause {
        Cause::Network(code) | Cause::Kdc(code) => code,
        Cause::ResultCode(code) => code as u32,
        _ => 0,
    }
}

/// Returns the kind with this number.
pub(crate) fn kind_at(code: u32) -> Option<ErrorKind>
    ensures has { IfSome result (λ kind. kind_code kind ≡ code) }
    ensures none { IfNone result (HasNoKind code) }
{
    match code {
        1 => Some(ErrorKind::InvalidToken),
        2 => Some(ErrorKind::InvalidParameter),
        3 => Some(ErrorKind::InvalidHandle),
        4 => Some(ErrorKind::OutOfSequence),
        5 => Some(ErrorKind::BufferTooSmall),
        6 => Some(ErrorKind::DecryptFailure),
        7 => Some(ErrorKind::EncryptFailure),
        8 => Some(ErrorKind::MessageAltered),
        9 => Some(ErrorKind::TimeSkew),
        10 => Some(ErrorKind::ContextExpired),
        11 => Some(ErrorKind::IncompleteCredentials),
        12 => Some(ErrorKind::NoCredentials),
        13 => Some(ErrorKind::UnknownCredentials),
        14 => Some(ErrorKind::WrongCredentialHandle),
        15 => Some(ErrorKind::UnsupportedPreAuth),
        16 => Some(ErrorKind::NoAuthenticatingAuthority),
        17 => Some(ErrorKind::KdcInvalidRequest),
        18 => Some(ErrorKind::KdcCertRevoked),
        19 => Some(ErrorKind::NoKerbKey),
        20 => Some(ErrorKind::NoTgtReply),
        21 => Some(ErrorKind::MutualAuthFailed),
        22 => Some(ErrorKind::TooManyPrincipals),
        23 => Some(ErrorKind::OperationNotSupported),
        24 => Some(ErrorKind::UnsupportedFunction),
        25 => Some(ErrorKind::InternalError),
        26 => Some(ErrorKind::Unknown),
        27 => Some(ErrorKind::OutOfMemory),
        _ => None,
    }
}

/// Returns a cause with this number.
pub(crate) fn cause_at(code: u32) -> Option<Cause>
    ensures has { IfSome result (λ cause. cause_code cause ≡ code) }
    ensures none { IfNone result (HasNoCause code) }
{
    match code {
        1 => Some(Cause::Memory),
        2 => Some(Cause::Moment),
        3 => Some(Cause::Connection),
        4 => Some(Cause::Role),
        5 => Some(Cause::Sequence),
        6 => Some(Cause::Shape),
        7 => Some(Cause::NoServiceKey),
        8 => Some(Cause::Etype),
        9 => Some(Cause::KeyLength),
        10 => Some(Cause::Short),
        11 => Some(Cause::Altered),
        12 => Some(Cause::Inner),
        13 => Some(Cause::Names),
        14 => Some(Cause::Skew),
        15 => Some(Cause::NotYet),
        16 => Some(Cause::Expired),
        17 => Some(Cause::Replayed),
        18 => Some(Cause::ClientName),
        19 => Some(Cause::ApOptions),
        20 => Some(Cause::SubKey),
        21 => Some(Cause::Credentials),
        22 => Some(Cause::ServerName),
        23 => Some(Cause::KeytabUser),
        24 => Some(Cause::NotAscii),
        25 => Some(Cause::Reply),
        26 => Some(Cause::NoNumber),
        27 => Some(Cause::Number),
        28 => Some(Cause::NoSubKey),
        29 => Some(Cause::NoTarget),
        30 => Some(Cause::Target),
        31 => Some(Cause::NoIdentity),
        32 => Some(Cause::NoKdc),
        33 => Some(Cause::Scheme),
        34 => Some(Cause::Network(0)),
        35 => Some(Cause::ReplyShort),
        36 => Some(Cause::EarlyAsRep),
        37 => Some(Cause::Kdc(0)),
        38 => Some(Cause::EtypeEntry),
        39 => Some(Cause::Salt),
        40 => Some(Cause::Hops),
        41 => Some(Cause::SameRealm),
        42 => Some(Cause::Port),
        43 => Some(Cause::UserData),
        44 => Some(Cause::ResultCode(0)),
        45 => Some(Cause::Buffers),
        46 => Some(Cause::TooSmall),
        47 => Some(Cause::Header),
        48 => Some(Cause::Direction),
        49 => Some(Cause::ExtraCount),
        50 => Some(Cause::Room),
        51 => Some(Cause::Old),
        52 => Some(Cause::Repeated),
        53 => Some(Cause::Sealed),
        54 => Some(Cause::NoKey),
        55 => Some(Cause::Checksum),
        56 => Some(Cause::Bindings),
        57 => Some(Cause::BadUser),
        58 => Some(Cause::Unsupported),
        59 => Some(Cause::Suspended),
        60 => Some(Cause::Nonce),
        61 => Some(Cause::ReplyNames),
        62 => Some(Cause::ReplyTime),
        63 => Some(Cause::Transited),
        _ => None,
    }
}
