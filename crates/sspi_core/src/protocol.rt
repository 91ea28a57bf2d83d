//! How a KDC is spoken to.

ghost use Rattle.std.specs.Prelude.{◌≡◌, IfSome, Some};
ghost use Rattle.sspi_core.specs.Protocol.{scheme_of};
ghost use Rattle.sspi_core.specs.declared.protocol.NetworkProtocol.{NetworkProtocol};

use std::fmt;

/// The protocol that carries a request to a KDC. It is printed as the scheme of its URLs.
#[derive(Clone, Copy, Debug, PartialEq, Eq, Hash)]
pub enum NetworkProtocol {
    Tcp,
    Udp,
    Http,
    Https,
}

impl NetworkProtocol {
    /// Returns the protocol whose URLs have this scheme. The scheme is compared as it is: only lower case matches.
    pub fn from_url_scheme(scheme: &str) -> Option<NetworkProtocol>
        ensures found { IfSome result (λ protocol. scheme.now ≡ scheme_of protocol) }
        ensures known { (protocol : NetworkProtocol) → scheme.now ≡ scheme_of protocol → result ≡ Some protocol }
    {
        match scheme {
            "tcp" => Some(NetworkProtocol::Tcp),
            "udp" => Some(NetworkProtocol::Udp),
            "http" => Some(NetworkProtocol::Http),
            "https" => Some(NetworkProtocol::Https),
            _ => None,
        }
    }

    /// The scheme of the protocol's URLs.
    pub fn scheme(self) -> &'static str
        ensures { result.now ≡ scheme_of self }
    {
        match self {
            NetworkProtocol::Tcp => "tcp",
            NetworkProtocol::Udp => "udp",
            NetworkProtocol::Http => "http",
            NetworkProtocol::Https => "https",
        }
    }
}

impl fmt::Display for NetworkProtocol {
    ghost output = { λ protocol. Some (scheme_of protocol) };

    fn fmt<W: fmt::Write>(&self, f: &mut fmt::Formatter<W>) -> fmt::Result {
        write!(f, "{}", self.scheme())
    }
}
