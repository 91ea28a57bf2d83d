//! The realm that a KDC refers to.

ghost use Rattle.std.specs.Prelude.{◌≡◌};
ghost use Rattle.std.specs.Option.{option_copied};
ghost use Rattle.krb_replies.specs.Realms.{referral_realm};

use krb_der::Name;
use krb_messages::PrincipalName;

/// The service of a KDC, in letters of either case (RFC 4120, section 7.3).
const KRBTGT: [u8; 6] = *b"krbtgt";

/// Returns the realm that a KDC refers to, by the name of the ticket that it gave (RFC 6806, section 8): the second of two
/// components if the first is `krbtgt`, the case of letters ignored; otherwise None.
#[tactic(auto, unfolding(crate::specs::Realms::referral_realm))]
pub fn referral_target_realm(sname: &PrincipalName) -> Option<&Name>
    ensures { option_copied result ≡ referral_realm sname.entry.now }
{
    match sname.name_string.as_slice() {
        [service, realm] if service.as_slice().eq_ignore_ascii_case(&KRBTGT) => Some(realm),
        _ => None,
    }
}
