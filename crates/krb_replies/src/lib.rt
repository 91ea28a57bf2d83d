//! Readers of the answers that a client gets: keys, salts, numbers, tickets.
//!
//! Each call is a chain of ordered checks in `specs/`, one function a check: `Keys` for the keys in the replies of a KDC
//! (RFC 4120, sections 3.1.5 and 3.3.4), `Salts` for the salts that a KDC names (section 5.2.7.5), `Answered` for the answers of a
//! service (section 5.5.2; RFC 3244, section 2), `Tickets` for the ticket of user-to-user, `Realms` for referrals (RFC 6806,
//! section 8), `Fresh` for the checks of a reply against its request (RFC 4120, sections 3.1.5 and 3.3.4). `specs/` speaks of
//! encrypted parts by 'is sealed' alone: nothing in `specs/` decrypts.
#![tactic(auto)]

mod answered;
mod facts;
mod fresh;
mod hints;
mod keys;
pub mod laws;
mod realms;
mod salts;
mod ticket;
mod token;
mod told;
mod unseal;

pub use answered::{
    extract_seq_number_from_ap_rep, extract_status_code_from_krb_priv_response,
    extract_sub_session_key_from_ap_rep,
};
pub use facts::{ReplyFacts, has_value, is_number};
pub use fresh::check_answer;
pub use keys::{
    ReplyKey, extract_session_key_from_as_rep, extract_session_key_from_as_rep_with_key,
    extract_session_key_from_tgs_rep, key_in_as_rep, key_in_tgs_rep,
};
pub use realms::referral_target_realm;
pub use salts::{
    extract_encryption_params_from_as_rep, extract_salt_from_krb_error, named_salt, named_suite,
    told_etype,
};
pub use ticket::extract_tgt_ticket_with_oid;
pub use token::{MAX_TOKEN_LEN, check_token_length};
pub use told::tell;
pub use unseal::{OWN_KEY, Refusals, SESSION_KEY, open, open_data, read_or, suite_of};
