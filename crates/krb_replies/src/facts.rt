//! The encrypted part of a KDC's reply besides the key, and checks against the request (RFC 4120, sections 3.1.5, 3.3.4 and 5.4.2).

ghost use Rattle.std.specs.Prelude.{◌≡◌};
ghost use Rattle.krb_replies.specs.Fresh.{is_number, has_value, repeats_nonce, is_valid_at};

use krb_der::{Bits, IntegerAsn1, Name, Time};
use krb_messages::PrincipalName;
use krb_replay::is_later;

/// The largest difference between the clocks of a client and of a KDC, in seconds.
const GRACE: u32 = 300;

/// The encrypted part of a KDC's reply besides the key of its ticket (RFC 4120, section 5.4.2).
#[derive(Drop)]
pub struct ReplyFacts {
    /// The nonce of the request that is answered.
    pub nonce: IntegerAsn1,
    /// The flags of the ticket (RFC 4120, section 5.3).
    pub flags: Bits,
    /// The time at which the client was first authenticated.
    pub authtime: Time,
    /// The time from which the ticket is valid, if that is not `authtime`.
    pub starttime: Option<Time>,
    /// The time until which the ticket is valid.
    pub endtime: Time,
    /// The time until which the ticket may be renewed.
    pub renew_till: Option<Time>,
    /// The realm of the service.
    pub srealm: Name,
    /// The service.
    pub sname: PrincipalName,
}

/// Returns whether an INTEGER is this number, in any spelling.
pub fn is_number(octets: &IntegerAsn1, number: i64) -> bool
    ensures { result ≡ is_number octets.now number }
{
    octets.value() == Some(number)
}

/// Returns whether an INTEGER is this number, in any spelling, or the number less 2^32: its four octets are read as that if the
/// first bit is set.
pub fn has_value(number: u32, octets: &IntegerAsn1) -> bool
    ensures { result ≡ has_value number octets.now }
{
    let number = i64::from(number);
    is_number(octets, number) || is_number(octets, number - 4_294_967_296)
}

impl ReplyFacts {
    /// Returns whether the reply has the nonce of a request, by its value. `asked` is the four octets of that nonce.
    pub fn repeats_nonce(&self, asked: &IntegerAsn1) -> bool
        ensures { result ≡ repeats_nonce asked.now self.now }
    {
        match asked.as_slice() {
            [a, b, c, d] => has_value(u32::from_be_bytes([*a, *b, *c, *d]), &self.nonce),
            _ => false,
        }
    }

    /// Returns whether the ticket is valid at this moment, in microseconds since 1970, give or take 300 seconds.
    pub fn is_valid_at(&self, moment: u64) -> bool
        ensures { result ≡ is_valid_at moment self.now }
    {
        let now = i128::from(moment);
        let start = self.starttime.unwrap_or(self.authtime);
        !is_later(start.microseconds(), now, GRACE)
            && !is_later(now, self.endtime.microseconds(), GRACE)
    }
}
