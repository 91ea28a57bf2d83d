//! Laws of the text that the command `threads` prints.
//!
//! There is no code here that runs: each law is a function without parameters and with an empty body, whose contract is the law. They
//! are about the answers of `krb_threads`: the replies of both workers, the journal of the replay book that they share, and the text
//! of these.
#![tactic(auto)]

pub mod laws;
