//! The rules that a context goes by: what it takes from peers that keep to the RFCs in another way, and what it checks besides.

ghost use Rattle.std.specs.Prelude.{⊤, [], ◌∷◌, ◌≡◌, codes};
ghost use Rattle.krb_context.specs.Rules as bits;
ghost use Rattle.krb_context.specs.Rules.{no_rules, rfc_rules, has_rule};

use bitflags::{Flag, Flags, bitflag_items};

/// The rules that a context goes by besides those that it always has. A new context has none of them, and no exchange changes them.
///
/// Those below 0x10000 take what the RFCs allow; those from there on check what the RFCs ask to be checked.
#[derive(Clone, Copy, Debug, PartialEq, Eq, PartialOrd, Ord, Hash)]
pub struct Rules(u32);

bitflag_items! {
    impl Rules: u32 {
        /// The sealed part of an AS-REP may have application tag 26 in the place of 25, with the same fields (RFC 4120,
        /// section 5.4.2). Every AS-REP of MIT's KDC needs it.
        const AS_REP_TAGGED_26 = 0x1;
        /// A first reply that is an AS-REP is taken as the second one is (RFC 4120, section 3.1.3). Users of MIT's KDC without
        /// `requires_preauth` need it.
        const NO_PREAUTHENTICATION = 0x2;
        /// A request to a ticket-granting service, its reply and an AP-REQ go by the suite of the key at hand, and the time by that
        /// which the KDC names (RFC 4120, sections 3.1.3 and 3.3.3). Users and services with one key of AES-128 need it.
        const SUITE_OF_EACH_KEY = 0x4;
        /// The flag AcceptorSubkey is written exactly where the sub-session key came in an AP-REP (RFC 4121, section 4.2.2).
        /// Heimdal without mutual authentication needs it.
        const SUBKEY_FLAG_BY_ORIGIN = 0x8;
        /// An initiator's first message has the sequence number that its authenticator showed (RFC 4120, section 5.5.1; RFC 4121,
        /// section 4.2.1). Without it Heimdal loses the first message, and MIT krb5 and Java report a gap.
        const FIRST_NUMBER_AS_SHOWN = 0x10;
        /// An AP-REP without a subkey leaves the authenticator's subkey as the key (RFC 4121, section 2). Services in Java need it.
        const AP_REP_WITHOUT_SUBKEY = 0x20;
        /// The sequence number of DCE style's third leg is compared by its value, in any encoding (RFC 4120, section 5.5.2).
        /// Initiators of MIT krb5 and of Heimdal need it, for half of all numbers.
        const THIRD_LEG_BY_VALUE = 0x40;
        /// An initiator that asked for no mutual authentication is established after its AP-REQ (RFC 4120, section 3.2.4).
        /// Applications that send messages one way need it.
        const ONE_WAY_IS_SETTLED = 0x80;
        /// The extra count of a sealed message is its own, up to what its body holds (RFC 4121, section 4.2.3). `gss_wrap` of MIT
        /// krb5 and of Heimdal in DCE style needs it.
        const EXTRA_COUNT_BY_TOKEN = 0x100;
        /// The client of a ticket and of its authenticator are compared by realm and components; the type of a name is a hint (RFC
        /// 4120, section 6.2).
        const NAMES_BY_COMPONENTS = 0x200;
        /// A client of any name with a component is admitted, whatever its type, and no user name is made where there is none (RFC
        /// 4120, section 6.2). Hosts, services and users with an instance need it, and whoever admits them looks at the whole name.
        const CLIENTS_OF_ANY_NAME = 0x400;
        /// The record of an authenticator has the tag of its cipher too, so that two log-ins of one client in one microsecond are two
        /// (RFC 4120, section 3.2.3). Clients that log in from several processes at once need it.
        const RECORDS_BY_TAG = 0x800;
        /// An AS-REP and a TGS-REP are accepted only as the reply to the request of this exchange: with its nonce, its client and its
        /// service, and with a ticket that is valid now (RFC 4120, sections 3.1.5 and 3.3.4). Without it a recorded log-in can be
        /// replayed.
        const FRESH_REPLIES = 0x10000;
        /// An AP-REP is taken only with the time of the authenticator that it answers (RFC 4120, section 3.2.5). Without it a recorded
        /// AP-REP of the same session key can be played back.
        const ANSWERS_ITS_AUTHENTICATOR = 0x20000;
        /// A ticket with the flag INVALID is refused (RFC 4120, section 3.2.3). Without it a postdated ticket is taken that no KDC
        /// has validated.
        const VALID_TICKETS = 0x40000;
        /// A ticket that came through further realms is taken only where a KDC checked them: the flag TRANSITED-POLICY-CHECKED is
        /// set, or there are none (RFC 4120, section 2.7).
        const CHECKED_TRANSIT = 0x80000;
        /// If the acceptor has the bindings of its channel, a client needs the same bindings: its authenticator's checksum is that of
        /// RFC 4121, section 4.1.1, over them.
        const BOUND_TO_ITS_CHANNEL = 0x100000;
    }
}

impl Flags for Rules {
    type Bits = u32;

    ghost exact = { ⊤ };

    ghost table = { (codes "AS_REP_TAGGED_26", bits.as_rep_tagged_26) ∷ (codes "NO_PREAUTHENTICATION", bits.no_preauthentication)
        ∷ (codes "SUITE_OF_EACH_KEY", bits.suite_of_each_key) ∷ (codes "SUBKEY_FLAG_BY_ORIGIN", bits.subkey_flag_by_origin)
        ∷ (codes "FIRST_NUMBER_AS_SHOWN", bits.first_number_as_shown) ∷ (codes "AP_REP_WITHOUT_SUBKEY", bits.ap_rep_without_subkey)
        ∷ (codes "THIRD_LEG_BY_VALUE", bits.third_leg_by_value) ∷ (codes "ONE_WAY_IS_SETTLED", bits.one_way_is_settled)
        ∷ (codes "EXTRA_COUNT_BY_TOKEN", bits.extra_count_by_token) ∷ (codes "NAMES_BY_COMPONENTS", bits.names_by_components)
        ∷ (codes "CLIENTS_OF_ANY_NAME", bits.clients_of_any_name) ∷ (codes "RECORDS_BY_TAG", bits.records_by_tag)
        ∷ (codes "FRESH_REPLIES", bits.fresh_replies) ∷ (codes "ANSWERS_ITS_AUTHENTICATOR", bits.answers_its_authenticator)
        ∷ (codes "VALID_TICKETS", bits.valid_tickets) ∷ (codes "CHECKED_TRANSIT", bits.checked_transit)
        ∷ (codes "BOUND_TO_ITS_CHANNEL", bits.bound_to_its_channel) ∷ [] };

    ghost set_of = { λ rules. rules.0 };

    fn flags<'a>() -> &'a [Flag<Rules>] {
        Rules::FLAGS
    }

    fn bits(&self) -> u32 {
        self.0
    }

    fn from_bits_retain(bits: u32) -> Rules {
        Rules(bits)
    }
}

impl Rules {
    /// No rule beyond those that a context always has: the specification to the letter.
    pub fn none() -> Rules
        ensures { result ≡ no_rules }
    {
        Rules(0)
    }

    /// Returns all rules: everything that RFC 4120 and RFC 4121 allow is accepted, and everything that they ask to check is checked.
    pub fn rfc() -> Rules
        ensures { result ≡ rfc_rules }
    {
        Rules(0x1f_0fff)
    }

    /// Returns whether this set contains the rule.
    pub fn has(self, rule: Rules) -> bool
        ensures { result ≡ has_rule self rule.0 }
    {
        self.contains(rule)
    }
}
