//! The codes of KRB-ERROR (RFC 4120 section 7.5.9).

ghost use Rattle.std.specs.Prelude.{◌≡◌};
ghost use Rattle.sspi_core.specs.Kinds.{kind_of_code};

use crate::kind::ErrorKind;

/// The kind of a KRB-ERROR with this code; `Unknown` for a code that the table does not have.
#[tactic(auto, unfolding(crate::specs::Kinds::kind_of_code))]
pub fn map_keb_error_code_to_sspi_error(code: u32) -> ErrorKind
    ensures { result ≡ kind_of_code code }
{
    match code {
        1 | 2 | 23 | 38 | 52 | 62 | 63 | 66 | 71 | 75 | 76 => ErrorKind::InvalidParameter,
        3
        | 10
        | 11
        | 12
        | 13
        | 15
        | 16
        | 17
        | 24
        | 25
        | 26
        | 27
        | 28
        | 29
        | 34
        | 36
        | 39
        | 44
        | 51
        | 61
        | 69
        | 70 => ErrorKind::KdcInvalidRequest,
        4 | 5 | 9 | 65 => ErrorKind::EncryptFailure,
        6 | 7 | 18 | 19 | 20 | 21 | 22 => ErrorKind::UnknownCredentials,
        8 => ErrorKind::TooManyPrincipals,
        14 => ErrorKind::OperationNotSupported,
        31 | 41 | 64 => ErrorKind::MessageAltered,
        32 => ErrorKind::ContextExpired,
        33 | 35 | 40 | 48 | 50 => ErrorKind::InvalidToken,
        37 => ErrorKind::TimeSkew,
        42 | 47 | 49 => ErrorKind::OutOfSequence,
        45 => ErrorKind::NoKerbKey,
        46 => ErrorKind::MutualAuthFailed,
        60 | 73 | 74 => ErrorKind::InternalError,
        67 => ErrorKind::NoTgtReply,
        68 => ErrorKind::NoAuthenticatingAuthority,
        72 => ErrorKind::KdcCertRevoked,
        _ => ErrorKind::Unknown,
    }
}
