//! A replay book that threads share, with a journal of its calls.
#![tactic(auto)]

mod calls;
mod desk;
mod desk_gate;
mod entry;
mod journal;
mod pass;
mod plays;
mod rule;
mod seat;
mod seat_gate;
mod shared_book;
mod steps;
mod table_book;
mod table_gate;

pub use calls::Calls;
pub use desk::Desk;
pub use desk_gate::DeskGate;
pub use entry::{Entry, Receipt};
pub use journal::{Differs, Journal};
pub use pass::Pass;
pub use seat::Seat;
pub use seat_gate::SeatGate;
pub use shared_book::SharedBook;
pub use table_book::TableBook;
pub use table_gate::TableGate;
