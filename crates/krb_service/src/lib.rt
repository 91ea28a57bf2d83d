//! The service: a Kerberos service over lines of text, as a program or a library calls it. There is no code in this crate.
//!
//! [`serve`] reads lines from a [`Source`], takes each event as its line comes, and writes the reply to a [`Sink`] before it reads
//! on. [`threads`] reads all lines first and takes the events on two threads over one replay book, and [`demo`] takes a made
//! input. Each returns the [`Status`] that the program exits with:
//!
//! ```
//! let mut source = SureSource::new(b"skew 300\n");
//! let mut sink = MemSink::new(alloc, Calls::sound(alloc));
//! let status = serve(alloc, &words, &mut source, &mut sink); // Done, and the sink has taken `end 0 0`
//! ```
//!
//! They use [`Service`], many connections over one replay gate: [`Service::run`] answers a list of events with as many replies.
//! [`run_two`] runs two services in two threads. `krb_laws` has the laws over the definitions that the contracts of these calls
//! name.
#![tactic(auto)]

pub use krb_machine::{Connection, HeldConnection, Reply, Service, Stopped, demo, serve};
pub use krb_script::{Event, Input};
pub use krb_text::{
    Calls, CutFault, Failed, LineCutter, MAX_INPUT, MAX_LINE, MemSink, MemSource, Sink, Source,
    Status, StdSink, StdSource, SureSink, SureSource, Words,
};
pub use krb_threads::{NoPause, Part, Pause, PausedGate, run_two, threads};

// Types of other crates for the parts of a service.
pub use krb_conf::{ConfigFile, Env, KerberosConfig};
pub use krb_context::{AdditionalServiceKeys, Kerberos, ServerProperties};
pub use krb_der::{Items, Name, Octets, OutOfMemory, Text};
pub use krb_replay::{ReplayBook, ReplayGate};
pub use sspi_core::{Cause, ClientRequestFlags, Error, Message, Secret, SecurityStatus};
pub use sspi_generator::NetworkRequest;
