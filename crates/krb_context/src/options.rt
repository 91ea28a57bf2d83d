//! The option sets of requests (RFC 4120, sections 5.4.1 and 5.5.1) and of the checksum of an initiator's first token (RFC 4121,
//! section 4.1.1.1).

ghost use Rattle.std.specs.Prelude.{⊤, [], ◌∷◌, ◌≡◌, codes, if◌then◌else◌};
ghost use Rattle.sspi_core.specs.Flags.{has_flag};
ghost use Rattle.krb_context.specs.Options as bits;
ghost use Rattle.krb_context.specs.Options.{ap_options_of, gss_flags_of};

use bitflags::{Flag, Flags, bitflag_items};
use sspi_core::ClientRequestFlags;

/// The options of a request to a KDC (RFC 4120, section 5.4.1), as the four octets of its bit string in big-endian order.
#[derive(Clone, Copy, Debug, PartialEq, Eq, PartialOrd, Ord, Hash)]
pub struct KdcOptions(u32);

/// The options of an AP-REQ (RFC 4120, section 5.5.1), as the four octets of its bit string in big-endian order.
#[derive(Clone, Copy, Debug, PartialEq, Eq, PartialOrd, Ord, Hash)]
pub struct ApOptions(u32);

/// The services of a context that are asked for (RFC 2744, appendix A; RFC 4121, section 4.1.1.1).
#[derive(Clone, Copy, Debug, PartialEq, Eq, PartialOrd, Ord, Hash)]
pub struct GssFlags(u32);

bitflag_items! {
    impl KdcOptions: u32 {
        const FORWARDABLE = 0x40000000;
        const FORWARDED = 0x20000000;
        const PROXIABLE = 0x10000000;
        const PROXY = 0x08000000;
        const ALLOW_POSTDATE = 0x04000000;
        const POSTDATED = 0x02000000;
        const RENEWABLE = 0x00800000;
        const OPT_HARDWARE_AUTH = 0x00100000;
        const CANONICALIZE = 0x00010000;
        const DISABLE_TRANSITED_CHECK = 0x20;
        const RENEWABLE_OK = 0x10;
        const ENC_TKT_IN_SKEY = 0x8;
        const RENEW = 0x2;
        const VALIDATE = 0x1;
    }

    impl ApOptions: u32 {
        /// The ticket is sealed under a session key, as user-to-user has it.
        const USE_SESSION_KEY = 0x40000000;
        /// An AP-REP is awaited.
        const MUTUAL_REQUIRED = 0x20000000;
    }

    impl GssFlags: u32 {
        const GSS_C_DELEG_FLAG = 0x1;
        const GSS_C_MUTUAL_FLAG = 0x2;
        const GSS_C_REPLAY_FLAG = 0x4;
        const GSS_C_SEQUENCE_FLAG = 0x8;
        const GSS_C_CONF_FLAG = 0x10;
        const GSS_C_INTEG_FLAG = 0x20;
        const GSS_C_ANON_FLAG = 0x40;
        const GSS_C_PROT_READY_FLAG = 0x80;
        const GSS_C_TRANS_FLAG = 0x100;
        const GSS_C_DCE_STYLE = 0x1000;
        const GSS_C_IDENTIFY_FLAG = 0x2000;
        const GSS_C_EXTENDED_ERROR_FLAG = 0x4000;
        const GSS_C_DELEG_POLICY_FLAG = 0x8000;
    }
}

impl Flags for KdcOptions {
    type Bits = u32;

    ghost exact = { ⊤ };

    ghost table = { (codes "FORWARDABLE", 0x40000000) ∷ (codes "FORWARDED", 0x20000000) ∷ (codes "PROXIABLE", 0x10000000)
        ∷ (codes "PROXY", 0x08000000) ∷ (codes "ALLOW_POSTDATE", 0x04000000) ∷ (codes "POSTDATED", 0x02000000)
        ∷ (codes "RENEWABLE", 0x00800000) ∷ (codes "OPT_HARDWARE_AUTH", 0x00100000) ∷ (codes "CANONICALIZE", 0x00010000)
        ∷ (codes "DISABLE_TRANSITED_CHECK", 0x20) ∷ (codes "RENEWABLE_OK", 0x10) ∷ (codes "ENC_TKT_IN_SKEY", 0x8)
        ∷ (codes "RENEW", 0x2) ∷ (codes "VALIDATE", 0x1) ∷ [] };

    ghost set_of = { λ options. options.0 };

    fn flags<'a>() -> &'a [Flag<KdcOptions>] {
        KdcOptions::FLAGS
    }

    fn bits(&self) -> u32 {
        self.0
    }

    fn from_bits_retain(bits: u32) -> KdcOptions {
        KdcOptions(bits)
    }
}

impl Flags for ApOptions {
    type Bits = u32;

    ghost exact = { ⊤ };

    ghost table = { (codes "USE_SESSION_KEY", bits.use_session_key) ∷ (codes "MUTUAL_REQUIRED", bits.mutual_required) ∷ [] };

    ghost set_of = { λ options. options.0 };

    fn flags<'a>() -> &'a [Flag<ApOptions>] {
        ApOptions::FLAGS
    }

    fn bits(&self) -> u32 {
        self.0
    }

    fn from_bits_retain(bits: u32) -> ApOptions {
        ApOptions(bits)
    }
}

impl Flags for GssFlags {
    type Bits = u32;

    ghost exact = { ⊤ };

    ghost table = { (codes "GSS_C_DELEG_FLAG", bits.gss_deleg) ∷ (codes "GSS_C_MUTUAL_FLAG", bits.gss_mutual)
        ∷ (codes "GSS_C_REPLAY_FLAG", bits.gss_replay) ∷ (codes "GSS_C_SEQUENCE_FLAG", bits.gss_sequence)
        ∷ (codes "GSS_C_CONF_FLAG", bits.gss_conf) ∷ (codes "GSS_C_INTEG_FLAG", bits.gss_integ)
        ∷ (codes "GSS_C_ANON_FLAG", 0x40) ∷ (codes "GSS_C_PROT_READY_FLAG", 0x80) ∷ (codes "GSS_C_TRANS_FLAG", 0x100)
        ∷ (codes "GSS_C_DCE_STYLE", bits.gss_dce_style) ∷ (codes "GSS_C_IDENTIFY_FLAG", 0x2000) ∷ (codes "GSS_C_EXTENDED_ERROR_FLAG", 0x4000)
        ∷ (codes "GSS_C_DELEG_POLICY_FLAG", 0x8000) ∷ [] };

    ghost set_of = { λ flags. flags.0 };

    fn flags<'a>() -> &'a [Flag<GssFlags>] {
        GssFlags::FLAGS
    }

    fn bits(&self) -> u32 {
        self.0
    }

    fn from_bits_retain(bits: u32) -> GssFlags {
        GssFlags(bits)
    }
}

/// The option, where the flag is set.
fn option_if(flags: ClientRequestFlags, flag: ClientRequestFlags, option: u32) -> u32
    ensures { result ≡ (if has_flag flags.0 flag.0 then option else 0) }
{
    if flags.contains(flag) { option } else { 0 }
}

impl ApOptions {
    /// `USE_SESSION_KEY` and `MUTUAL_REQUIRED`, from `USE_SESSION_KEY` and `MUTUAL_AUTH`.
    pub fn from_client_flags(flags: ClientRequestFlags) -> ApOptions
        ensures { result.0 ≡ ap_options_of flags.0 }
    {
        ApOptions(
            option_if(
                flags,
                ClientRequestFlags::USE_SESSION_KEY,
                ApOptions::USE_SESSION_KEY.0,
            ) | option_if(
                flags,
                ClientRequestFlags::MUTUAL_AUTH,
                ApOptions::MUTUAL_REQUIRED.0,
            ),
        )
    }
}

impl GssFlags {
    /// Returns the flags of a context that the flags of a request ask for. `NO_INTEGRITY` cancels `INTEGRITY`.
    pub fn from_client_flags(flags: ClientRequestFlags) -> GssFlags
        ensures { result.0 ≡ gss_flags_of flags.0 }
    {
        let asked = GssFlags(
            option_if(
                flags,
                ClientRequestFlags::DELEGATE,
                GssFlags::GSS_C_DELEG_FLAG.0,
            ) | option_if(
                flags,
                ClientRequestFlags::MUTUAL_AUTH,
                GssFlags::GSS_C_MUTUAL_FLAG.0,
            ) | option_if(
                flags,
                ClientRequestFlags::REPLAY_DETECT,
                GssFlags::GSS_C_REPLAY_FLAG.0,
            ) | option_if(
                flags,
                ClientRequestFlags::SEQUENCE_DETECT,
                GssFlags::GSS_C_SEQUENCE_FLAG.0,
            ) | option_if(
                flags,
                ClientRequestFlags::CONFIDENTIALITY,
                GssFlags::GSS_C_CONF_FLAG.0,
            ) | option_if(
                flags,
                ClientRequestFlags::INTEGRITY,
                GssFlags::GSS_C_INTEG_FLAG.0,
            ) | option_if(
                flags,
                ClientRequestFlags::USE_DCE_STYLE,
                GssFlags::GSS_C_DCE_STYLE.0,
            ),
        );
        if flags.contains(ClientRequestFlags::NO_INTEGRITY) {
            asked.difference(GssFlags::GSS_C_INTEG_FLAG)
        } else {
            asked
        }
    }
}
