//! The checks of a ticket and its authenticator that the rules ask for, and the requests in a client's checksum.

ghost use Rattle.std.specs.Prelude.{◌≡◌};
ghost use Rattle.sspi_core.specs.declared.cause.Cause.TheVariants as causes;
ghost use Rattle.sspi_core.specs.Checks.{Holds};
ghost use Rattle.krb_context.specs.declared.context.Kerberos.{Kerberos};
ghost use Rattle.krb_admission.specs.Allowed.{
  is_invalid,
  is_policy_checked,
  is_validated,
  is_transit_checked,
  is_gss,
  is_gss_if_there,
  hash_told,
  channel_held,
  tells_bindings,
  is_bound,
  low_word,
  Allows,
  gss_flags,
  cred_in,
  asks_to_delegate,
  delegation_told,
  first_number,
};

use crate::admission::number_low;
use crate::request::Request;
use krb_context::{Kerberos, Rules};
use krb_der::{Bits, IntegerAsn1, is_equal};
use krb_messages::{Checksum, EncTicketPart};
use krb_replies::is_number;
use sspi_core::{Cause, hold};

/// The type of the checksum that carries bindings and flags (RFC 4121, section 4.1.1).
const GSS_CHECKSUM: i64 = 0x8003;

/// Its octets up to the flags: the length of the bindings' hash in four octets, the lowest first, the hash, and the flags.
const GSS_CHECKSUM_LENGTH: usize = 24;

fn is_invalid(flags: &Bits) -> bool
    ensures { result ≡ is_invalid flags.now.octets }
{
    match flags.octets.as_slice() {
        [first, ..] => *first & 0x01 != 0,
        [] => false,
    }
}

fn is_policy_checked(flags: &Bits) -> bool
    ensures { result ≡ is_policy_checked flags.now.octets }
{
    match flags.octets.as_slice() {
        [_, second, ..] => *second & 0x08 != 0,
        _ => false,
    }
}

fn is_validated(rules: Rules, part: &EncTicketPart) -> bool
    ensures { result ≡ is_validated rules part.now }
{
    !rules.has(Rules::VALID_TICKETS) || !is_invalid(&part.flags)
}

fn is_transit_checked(rules: Rules, part: &EncTicketPart) -> bool
    ensures { result ≡ is_transit_checked rules part.now }
{
    !rules.has(Rules::CHECKED_TRANSIT)
        || part.transited.contents.as_slice().is_empty()
        || is_policy_checked(&part.flags)
}

/// Returns whether this is a checksum over bindings and flags.
fn is_gss(checksum: &Checksum) -> bool
    ensures { result ≡ is_gss checksum.now }
{
    let octets = checksum.checksum.as_slice();
    is_number(&checksum.cksumtype, GSS_CHECKSUM)
        && octets.len() >= GSS_CHECKSUM_LENGTH
        && octets[..4] == [16, 0, 0, 0]
}

/// Returns the MD5 of the bindings that a client must have, None if it needs none.
pub(crate) fn channel_held(server: &Kerberos) -> Option<[u8; 16]>
    ensures { result ≡ channel_held server.now }
{
    if server.rules.has(Rules::BOUND_TO_ITS_CHANNEL) {
        server.channel
    } else {
        None
    }
}

fn is_gss_if_there(checksum: &Option<Checksum>) -> bool
    ensures { result ≡ is_gss_if_there checksum.now }
{
    match checksum {
        Some(checksum) => is_gss(checksum),
        None => false,
    }
}

/// The MD5 of the client's bindings in such a checksum, and no octets in any other.
pub(crate) fn hash_told(checksum: &Option<Checksum>) -> &[u8]
    ensures { result.now ≡ hash_told checksum.now }
{
    match checksum {
        Some(checksum) if is_gss(checksum) => &checksum.checksum.as_slice()[4..20],
        _ => &[],
    }
}

/// Four octets as a number, the lowest first.
fn low_word(octets: &[u8]) -> Option<u32>
    ensures { result ≡ low_word octets.now }
{
    match octets {
        [a, b, c, d, ..] => Some(u32::from_le_bytes([*a, *b, *c, *d])),
        _ => None,
    }
}

/// The GSS flags that the client asked for.
pub(crate) fn gss_flags(checksum: &Option<Checksum>) -> Option<u32>
    ensures { result ≡ gss_flags checksum.now }
{
    match checksum {
        Some(checksum) if is_gss(checksum) => low_word(&checksum.checksum.as_slice()[20..]),
        _ => None,
    }
}

/// The KRB-CRED from octet 24 of a checksum on.
fn cred_in(octets: &[u8]) -> &[u8]
    ensures { result.now ≡ cred_in octets.now }
{
    match octets {
        [1, 0, low, high, rest @ ..] => {
            let length = u16::from_le_bytes([*low, *high]) as usize;
            if length <= rest.len() {
                &rest[..length]
            } else {
                &[]
            }
        }
        _ => &[],
    }
}

fn asks_to_delegate(flags: Option<u32>) -> bool
    ensures { result ≡ asks_to_delegate flags }
{
    match flags {
        Some(flags) => flags & 1 != 0,
        None => false,
    }
}

/// The KRB-CRED of a client that asks for delegation.
pub(crate) fn delegation_told(checksum: &Option<Checksum>) -> &[u8]
    ensures { result.now ≡ delegation_told checksum.now }
{
    if !asks_to_delegate(gss_flags(checksum)) {
        return &[];
    }
    match checksum {
        Some(checksum) => cred_in(&checksum.checksum.as_slice()[24..]),
        None => &[],
    }
}

/// The number of a client's first message.
pub(crate) fn first_number(octets: &Option<IntegerAsn1>) -> u32
    ensures { result ≡ first_number octets.now }
{
    match octets {
        Some(octets) => number_low(octets.as_slice()),
        None => 0,
    }
}

/// Returns whether the client's checksum contains bindings; true if the client needs none.
fn tells_bindings(channel: Option<[u8; 16]>, checksum: &Option<Checksum>) -> bool
    ensures { result ≡ tells_bindings channel checksum.now }
{
    match channel {
        Some(_) => is_gss_if_there(checksum),
        None => true,
    }
}

/// Returns whether the client's bindings are those of the channel; true if the client needs none.
fn is_bound(channel: Option<[u8; 16]>, checksum: &Option<Checksum>) -> bool
    ensures { result ≡ is_bound channel checksum.now }
{
    match channel {
        Some(hash) => is_equal(hash_told(checksum), &hash),
        None => true,
    }
}

fn check_validity(rules: Rules, part: &EncTicketPart) -> Result<(), Cause>
    ensures { Holds causes.NotYet (is_validated rules part.now) result }
{
    hold(is_validated(rules, part), Cause::NotYet)
}

fn check_transit(rules: Rules, part: &EncTicketPart) -> Result<(), Cause>
    ensures { Holds causes.Transited (is_transit_checked rules part.now) result }
{
    hold(is_transit_checked(rules, part), Cause::Transited)
}

fn check_told(channel: Option<[u8; 16]>, checksum: &Option<Checksum>) -> Result<(), Cause>
    ensures { Holds causes.Checksum (tells_bindings channel checksum.now) result }
{
    hold(tells_bindings(channel, checksum), Cause::Checksum)
}

fn check_bound(channel: Option<[u8; 16]>, checksum: &Option<Checksum>) -> Result<(), Cause>
    ensures { Holds causes.Bindings (is_bound channel checksum.now) result }
{
    hold(is_bound(channel, checksum), Cause::Bindings)
}

/// Checks that the ticket and the authenticator are as the rules ask, and bound to the channel if the client must be.
#[tactic(auto, unfolding(crate::specs::Allowed::Allows))]
pub(crate) fn allow(rules: Rules, channel: Option<[u8; 16]>, request: &Request) -> Result<(), Cause>
    ensures { (server : Kerberos) → server.rules ≡ rules → channel_held server ≡ channel → Allows server request.now result }
{
    check_validity(rules, &request.part)?;
    check_transit(rules, &request.part)?;
    check_told(channel, &request.authenticator.cksum)?;
    check_bound(channel, &request.authenticator.cksum)
}
