//! Every law of a service and of both ends, from one `use`. There is no code in this crate.
//!
//! Each law is a function without parameters and with an empty body, whose contract is the law: it holds for every service, every pair
//! of ends and every input. The program `krb_run` does not wait for their proofs.
#![tactic(auto)]

// The replies of a service to events, over any gate and over a replay book.
pub use krb_machine::laws::{
    admitted_exactly_where, books_admit_a_record_once, completeness, completeness_over_a_book,
    gates_refuse_by_the_clock, messages_follow_the_lists, one_outcome, one_reply,
    one_reply_an_event, one_text, records_are_left_once, runs_never_forget,
};

// The text that answers an input, on one thread and on two.
pub use krb_laws_journal::laws::texts_tell_the_journal;
pub use krb_machine::laws::inputs_are_answered;
pub use krb_text::laws::cutters_hold_nothing_else;
pub use krb_threads::laws::inputs_are_answered as inputs_of_threads_are_answered;

// An initiator and an acceptor together.
pub use krb_laws_ends::laws::{
    both_ends_reach_one_context, both_ends_understand_each_other, dce_exchanges_end_well,
    directions_go_on, established_ends_understand_each_other, exchanges_end_well,
    honest_kdcs_lead_to_an_offer, honest_requests_are_admitted, honest_requests_are_answered,
    initiators_begin, messages_open_in_any_order, messages_open_in_their_order,
    messages_open_where_others_are_lost, runs_have_one_end,
};

// An initiator and an acceptor over services, event by event.
pub use krb_laws_service::laws::{
    books_leave_the_service_as_histories_do, both_ends_reach_one_context_by_events,
    established_connections_understand_each_other, events_leave_other_connections,
    one_list_of_events_brings_both_to_one_context,
};

// The origin of the session keys of initiators.
pub use krb_laws_origin::laws::{
    declared_initiators_have_keys_by_their_replies, session_keys_come_from_credentials,
};

// A client and the small KDCs of `krb_kdc`.
pub use krb_laws_kdc::laws::{
    clients_are_asked_for_their_key, clients_with_their_key_are_granted_a_ticket,
    credentials_ask_their_kdc, fetched_tickets_are_admitted, first_replies_are_honest,
    holders_of_tickets_are_served, next_replies_are_honest, requests_for_a_key_are_honest,
    runs_over_kdcs_fetch_their_ticket, some_client_can_fetch, tgs_requests_ask_their_kdc,
    tickets_are_opened,
};
