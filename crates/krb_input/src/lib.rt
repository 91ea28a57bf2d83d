//! The whole input of a service, read before its first event is processed: two threads read the lines of a large piece, and the
//! events are split between two workers.
#![tactic(auto)]

mod ahead;
mod ending;
mod known;
mod parting;
mod reading;

pub use ending::Ending;
pub use known::Known;
pub use parting::{numbers, parted};
pub use reading::read_all;
