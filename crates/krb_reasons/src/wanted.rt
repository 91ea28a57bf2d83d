//! The kinds of fields of a line, and their requirements.

ghost use Rattle.std.specs.Prelude.{◌≡◌};
ghost use Rattle.krb_reasons.specs.Wanted.{field_name, wish};

/// The kind of a field of a line: its name in the table of lines, and its requirement.
#[derive(Clone, Copy, Debug, PartialEq, Eq)]
pub enum Wanted {
    /// The first field of a line.
    Word,
    /// The word of an event's input.
    Input,
    Seconds,
    Id,
    /// 32 bits.
    Number,
    /// 64 bits.
    Moment,
    /// 64 octets.
    Random,
    Flags,
    Host,
    Service,
    /// A service, or `-`.
    Target,
    User,
    /// A domain, or `-`.
    Domain,
    Variable,
    Path,
    Principal,
    KeyType,
    Url,
    Hex,
    /// Octets, of which there may be none: `-`.
    HexOrNone,
    /// The octets of a text in UTF-8, of which there may be none: `-`.
    Utf8,
    Buffer,
}

impl Wanted {
    /// Returns the name of the field in the table of lines.
    pub fn name(self) -> &'static str
        ensures { result.now ≡ field_name self }
    {
        match self {
            Wanted::Word => "the word",
            Wanted::Input => "<input>",
            Wanted::Seconds => "<seconds>",
            Wanted::Id => "<id>",
            Wanted::Number => "<number>",
            Wanted::Moment => "<moment>",
            Wanted::Random => "<random>",
            Wanted::Flags => "<flags>",
            Wanted::Host => "<host>",
            Wanted::Service => "<service>",
            Wanted::Target => "<target>",
            Wanted::User => "<user>",
            Wanted::Domain => "<domain>",
            Wanted::Variable => "<name>",
            Wanted::Path => "<path>",
            Wanted::Principal => "<principal>",
            Wanted::KeyType => "<type>",
            Wanted::Url => "<url>",
            Wanted::Hex | Wanted::HexOrNone | Wanted::Utf8 => "<hex>",
            Wanted::Buffer => "<buffers>",
        }
    }

    /// Returns the requirement of the field, in words.
    pub fn wish(self) -> &'static str
        ensures { result.now ≡ wish self }
    {
        match self {
            Wanted::Word =>
                "skew, acceptor, initiator, key, password, keytab, kdc, env, file or event",
            Wanted::Input => "token, start, reply, fault, wrap, unwrap, mic or verify",
            Wanted::Seconds => "a decimal number up to 86400, without sign and leading zero",
            Wanted::Id | Wanted::Number =>
                "a decimal number of at most 32 bits, without sign and leading zero",
            Wanted::Moment => "a decimal number of at most 64 bits, without sign and leading zero",
            Wanted::Random => "128 hex digits",
            Wanted::Flags => "letters of DMRSCKEIN, each once, or -",
            Wanted::Host | Wanted::Service | Wanted::User | Wanted::Variable | Wanted::Path =>
                "octets from 21 to 7E",
            Wanted::Target | Wanted::Domain => "octets from 21 to 7E, or -",
            Wanted::Principal => "a name with at most one \\, and with none if it has an @",
            Wanted::KeyType => "17 or 18",
            Wanted::Url => "a URL, or an address that is a URL after tcp://",
            Wanted::Hex => "an even number of hex digits, at least two",
            Wanted::HexOrNone => "an even number of hex digits, at least two, or -",
            Wanted::Utf8 => "the hex digits of a text in UTF-8, at least two, or -",
            Wanted::Buffer =>
                "T, D, R or S, its octets in hex, and a limit from their number to 1048576, with a colon between each two",
        }
    }
}
