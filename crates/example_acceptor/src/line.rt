//! The lines that the acceptor reads: words with one space between two of them.

/// One line, with its octets in hex.
#[derive(Clone, Copy)]
pub enum Line<'a> {
    /// `service NAME KEY`: the service, as `host/server.example.com`, and its key.
    Service {
        name: &'a str,
        key: &'a str,
    },
    /// `client MOMENT RANDOM TOKEN`: a client's token, when it came in microseconds since 1970-01-01T00:00:00Z, and the 64
    /// random octets that were drawn for it.
    Client {
        moment: u64,
        random: &'a str,
        token: &'a str,
    },
    /// `message TOKEN`: an encrypted message of the client that was admitted last.
    Message {
        sealed: &'a str,
    },
}

impl<'a> Line<'a> {
    /// Returns None if the words are no such line.
    pub fn parse(line: &'a str) -> Option<Line<'a>> {
        let mut words = line.split(' ');
        let line = match words.next()? {
            "service" => Line::Service {
                name: words.next()?,
                key: words.next()?,
            },
            "client" => Line::Client {
                moment: words.next()?.parse().ok()?,
                random: words.next()?,
                token: words.next()?,
            },
            "message" => Line::Message {
                sealed: words.next()?,
            },
            _ => return None,
        };
        if words.next().is_some() {
            return None;
        }
        Some(line)
    }
}
