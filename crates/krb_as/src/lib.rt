//! The AS exchange of a client with a KDC (RFC 4120, section 3.1), and what each exchange with a KDC has in common.
//!
//! - [`client_of`] makes the client of credentials, [`asker_of`] the asker for it, and [`first_body`] the body of its AS-REQ for one
//!   of the two services that answer with a first ticket.
//! - [`find_kdc`] returns the KDC that the requests for a realm go to and its protocol, [`request_to`] makes the bytes that are sent
//!   there, and [`unwrap_reply`] returns the message in the bytes of a reply (RFC 4120, section 7.2; MS-KKDCP, section 2.2.2).
//!   Nothing here sends anything.
//! - [`begin_exchange`] makes the first request and [`take_reply`] the second one, and takes the ticket of the AS-REP. An [`AsPhase`]
//!   is the state between them. Each run that begins with an AS exchange contains it.
//! - [`AsExchange`] is the exchange as a task of its own, whose AS-REP [`reply_key`] decrypts with the key of the credentials;
//!   [`granted`] takes any reply, and [`go_on`] turns the result of a step's checks into the step of a task.
//!
//! Each step is one chain of ordered checks in `specs/`. A law in [`laws`] says that it has at most one outcome.
#![tactic(auto)]

mod as_exchange;
mod as_phase;
mod asker;
mod body;
mod client;
mod done;
mod fresh;
mod kdc;
mod key;
pub mod laws;
mod receiving;
mod reply;
mod request;
mod sending;
mod turn;

pub use as_exchange::{AsDone, AsExchange, ExchangePhase};
pub use as_phase::{AsPhase, begin_exchange, take_reply};
pub use asker::{Asker, asker_of, asker_suite, default_salt, sized_key};
pub use body::{FirstService, first_body};
pub use client::{Client, client_of, short_name};
pub use done::InitDone;
pub use kdc::{Kdc, find_kdc};
pub use key::{Grant, SealedTime, reply_key};
pub use receiving::{MAX_REPLY, read_reply, unwrap_reply};
pub use reply::{granted, granted_as_rep, granted_tgs_rep, left_salt};
pub use sending::request_to;
pub use turn::{Turn, go_on, is_want};
