//! The lines that the initiator reads: words with one space between two of them.

/// The user that logs in, and the user's machine and KDC.
#[derive(Clone, Copy)]
pub struct User<'a> {
    pub name: &'a str,
    pub realm: &'a str,
    /// The name of the machine.
    pub machine: &'a str,
    /// The URL of the KDC, as `tcp://kdc.example.com:88`.
    pub kdc: &'a str,
    pub password: &'a str,
    /// The first sequence number of this end: four random bytes.
    pub number: &'a str,
}

/// One line, with its octets in hex.
#[derive(Clone, Copy)]
pub enum Line<'a> {
    /// `user NAME REALM MACHINE KDC PASSWORD NUMBER`: the user that logs in, and the user's machine and KDC.
    User(User<'a>),
    /// `step MOMENT RANDOM`: the microseconds since 1970-01-01T00:00:00Z and the 64 random bytes of one more step.
    Step { moment: u64, random: &'a str },
    /// `reply OCTETS`: the network's next reply.
    Reply { octets: &'a str },
    /// `login SERVICE`, as `host/server.example.com`.
    Login { target: &'a str },
    /// `answer SERVICE TOKEN`: the service's answer.
    Answer { target: &'a str, token: &'a str },
    /// `seal CONFOUNDER TEXT`: a message for the service, with 16 random bytes.
    Seal { confounder: &'a str, text: &'a str },
    /// `change PASSWORD`: the user's password becomes this one.
    Change { password: &'a str },
}

impl<'a> Line<'a> {
    /// Returns None if the words are no such line.
    pub fn parse(line: &'a str) -> Option<Line<'a>> {
        let mut words = line.split(' ');
        let line = match words.next()? {
            "user" => Line::User(User {
                name: words.next()?,
                realm: words.next()?,
                machine: words.next()?,
                kdc: words.next()?,
                password: words.next()?,
                number: words.next()?,
            }),
            "step" => Line::Step {
                moment: words.next()?.parse().ok()?,
                random: words.next()?,
            },
            "reply" => Line::Reply {
                octets: words.next()?,
            },
            "login" => Line::Login {
                target: words.next()?,
            },
            "answer" => Line::Answer {
                target: words.next()?,
                token: words.next()?,
            },
            "seal" => Line::Seal {
                confounder: words.next()?,
                text: words.next()?,
            },
            "change" => Line::Change {
                password: words.next()?,
            },
            _ => return None,
        };
        if words.next().is_some() {
            return None;
        }
        Some(line)
    }
}
