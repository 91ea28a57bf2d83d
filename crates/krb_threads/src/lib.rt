//! A Kerberos service on two threads, over one replay book, with a journal of its calls.
//!
//! [`threads`] reads all lines of its input, passes each event to one of two workers by the number of its connection, and writes
//! the replies of both, and the journal of the replay book that they share. It uses [`run_two`]: two services, each with its own
//! events, in two threads.
//!
//! ```
//! let mut source = SureSource::new(b"skew 300\n");
//! let mut sink = MemSink::new(alloc, Calls::sound(alloc));
//! let status = threads(&rt, alloc, &words, &mut source, &mut sink, &mut NoPause, &mut NoPause);
//! // Done, and the sink has taken `end 0 0`
//! ```
//!
//! The contract says how a call ends, and what it has written then: `specs/Threads.antt` has a line for each status. No contract
//! says that both workers run at once, or that a worker makes progress.
#![tactic(auto)]

mod both;
mod command;
mod described;
mod desk;
mod going;
pub mod laws;
mod part;
mod pause;
mod paused_gate;
mod seats;
mod text;
mod work;
mod workers;

pub use both::run_two;
pub use command::threads;
pub use part::Part;
pub use pause::{NoPause, Pause};
pub use paused_gate::PausedGate;
