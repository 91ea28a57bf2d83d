//! A Kerberos service over lines of text.
//!
//! [`serve`] reads lines from a source, takes each event as its line comes, and writes the reply before it reads on:
//!
//! ```
//! let mut source = SureSource::new(b"skew 300\n");
//! let mut sink = MemSink::new(alloc, Calls::sound(alloc));
//! let status = serve(alloc, &words, &mut source, &mut sink); // Done, and the sink has taken `end 0 0`
//! ```
//!
//! The contract says how a call ends, and what it has written then: `specs/Serve.antt` has a line for each status. The policy
//! machine determines the reply of a service to an event: `specs/Policy.antt`.
//!
//! A connection that talks to KDCs has an [`Exchange`]: [`begin_exchange`] starts a [`Run`], and [`continue_exchange`] passes the
//! answer of the network to it. Both return a [`Step`]: a request, and the exchange that waits for its answer; the end, with the
//! change for the context; or a refusal, which ends the exchange too. If memory runs out there is no step, and the exchange is as it
//! was.
#![tactic(auto)]

mod acceptance;
mod closing;
mod command;
mod connection;
mod connection_event;
mod connection_exchange;
mod demonstration;
mod described;
mod exchange;
mod initiation;
pub mod laws;
mod message_calls;
mod reply;
mod run;
mod service;
mod session;

pub use closing::end_line;
pub use command::serve;
pub use connection::{Connection, HeldConnection};
pub use demonstration::demo;
pub use described::connection_of;
pub use exchange::{Exchange, Step, begin_exchange, continue_exchange, is_memory};
pub use krb_lines::{ROOM, numbered_line};
pub use krb_script::{Event, Input};
pub use krb_text::{
    Calls, CutFault, Failed, LineCutter, MemSink, MemSource, Sink, Source, Status, StdSink,
    StdSource, SureSink, SureSource, Words,
};
pub use reply::Reply;
pub use run::Run;
pub use service::{Service, Stopped};
