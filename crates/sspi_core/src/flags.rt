//! Sets of options.

ghost use Rattle.std.specs.Prelude.{⊤, [], ◌∷◌, codes};
ghost use Rattle.sspi_core.specs.Flags as bits;

use bitflags::{Flag, Flags, bitflag_items};

/// The options that the caller of an initiator requests. An acceptor reads only `USE_SESSION_KEY` and `USE_DCE_STYLE`.
#[derive(Clone, Copy, Debug, PartialEq, Eq, PartialOrd, Ord, Hash)]
pub struct ClientRequestFlags(u32);

/// The options that the caller of an acceptor requests.
#[derive(Clone, Copy, Debug, PartialEq, Eq, PartialOrd, Ord, Hash)]
pub struct ServerRequestFlags(u32);

/// How a buffer of a message is covered. With both flags it counts as `SECBUFFER_READONLY_WITH_CHECKSUM`.
#[derive(Clone, Copy, Debug, PartialEq, Eq, PartialOrd, Ord, Hash)]
pub struct SecurityBufferFlags(u32);

bitflag_items! {
    impl ClientRequestFlags: u32 {
        /// The target may act for the client.
        const DELEGATE = 0x1;
        /// The target answers with a token of its own.
        const MUTUAL_AUTH = 0x2;
        /// Messages that arrive twice are reported (RFC 2743 section 1.2.3).
        const REPLAY_DETECT = 0x4;
        /// Messages that arrive out of order are reported (RFC 2743 section 1.2.3).
        const SEQUENCE_DETECT = 0x8;
        /// Messages are sealed.
        const CONFIDENTIALITY = 0x10;
        /// A ticket under the session key of the target's ticket, as user-to-user has it (RFC 4120 section 3.7).
        const USE_SESSION_KEY = 0x20;
        /// Tokens are bare, and the initiator sends the third leg.
        const USE_DCE_STYLE = 0x200;
        /// Messages have a checksum.
        const INTEGRITY = 0x10000;
        /// Messages need none, even with `INTEGRITY`.
        const NO_INTEGRITY = 0x800000;
    }

    impl ServerRequestFlags: u32 {
        /// A ticket under the session key of the acceptor's ticket, as user-to-user has it (RFC 4120 section 3.7).
        const USE_SESSION_KEY = 0x20;
        /// Tokens are bare, and the initiator sends the third leg.
        const USE_DCE_STYLE = 0x200;
    }

    impl SecurityBufferFlags: u32 {
        /// The buffer is sealed, and the checksum covers it.
        const NONE = 0x0;
        /// The buffer is not sealed, and the checksum covers it.
        const SECBUFFER_READONLY_WITH_CHECKSUM = 0x10000000;
        /// The buffer is neither sealed nor covered.
        const SECBUFFER_READONLY = 0x80000000;
    }
}

impl Flags for ClientRequestFlags {
    type Bits = u32;

    ghost exact = { ⊤ };

    ghost table = { (codes "DELEGATE", bits.delegate) ∷ (codes "MUTUAL_AUTH", bits.mutual_auth)
        ∷ (codes "REPLAY_DETECT", bits.replay_detect) ∷ (codes "SEQUENCE_DETECT", bits.sequence_detect)
        ∷ (codes "CONFIDENTIALITY", bits.confidentiality) ∷ (codes "USE_SESSION_KEY", bits.use_session_key)
        ∷ (codes "USE_DCE_STYLE", bits.use_dce_style) ∷ (codes "INTEGRITY", bits.integrity)
        ∷ (codes "NO_INTEGRITY", bits.no_integrity) ∷ [] };

    ghost set_of = { λ flags. flags.0 };

    fn flags<'a>() -> &'a [Flag<ClientRequestFlags>] {
        ClientRequestFlags::FLAGS
    }

    fn bits(&self) -> u32 {
        self.0
    }

    fn from_bits_retain(bits: u32) -> ClientRequestFlags {
        ClientRequestFlags(bits)
    }
}

impl Flags for ServerRequestFlags {
    type Bits = u32;

    ghost exact = { ⊤ };

    ghost table = { (codes "USE_SESSION_KEY", bits.use_session_key) ∷ (codes "USE_DCE_STYLE", bits.use_dce_style) ∷ [] };

    ghost set_of = { λ flags. flags.0 };

    fn flags<'a>() -> &'a [Flag<ServerRequestFlags>] {
        ServerRequestFlags::FLAGS
    }

    fn bits(&self) -> u32 {
        self.0
    }

    fn from_bits_retain(bits: u32) -> ServerRequestFlags {
        ServerRequestFlags(bits)
    }
}

impl Flags for SecurityBufferFlags {
    type Bits = u32;

    ghost exact = { ⊤ };

    ghost table = { (codes "NONE", 0) ∷ (codes "SECBUFFER_READONLY_WITH_CHECKSUM", bits.readonly_with_checksum)
        ∷ (codes "SECBUFFER_READONLY", bits.readonly) ∷ [] };

    ghost set_of = { λ flags. flags.0 };

    fn flags<'a>() -> &'a [Flag<SecurityBufferFlags>] {
        SecurityBufferFlags::FLAGS
    }

    fn bits(&self) -> u32 {
        self.0
    }

    fn from_bits_retain(bits: u32) -> SecurityBufferFlags {
        SecurityBufferFlags(bits)
    }
}
