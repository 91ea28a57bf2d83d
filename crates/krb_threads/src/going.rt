//! Values that are dropped next to other work.

use crate::described::Described;
use crate::workers::Answers;
use std::thread::{JoinHandle, Threads, spawn};

/// A thread that drops a value, or none if none could be made.
#[derive(Drop)]
pub struct Going {
    thread: Option<JoinHandle<()>>,
}

impl Going {
    /// Begins to drop a value. Drops it at once if no thread can be made.
    pub fn start<R: Threads, T: Drop + Send + 'static>(rt: &R, value: T) -> Going {
        let go = move || {
            let _gone = value;
        };
        match spawn(rt, go) {
            Ok(thread) => Going {
                thread: Some(thread),
            },
            Err(_) => Going { thread: None },
        }
    }

    /// Returns once the value is dropped.
    pub fn wait<R: Threads>(self, rt: &R) {
        if let Some(thread) = self.thread {
            thread.join(rt);
        }
    }
}

/// Drops all that was needed for the answers. Each of two threads frees what it allocated itself, since the C library's
/// allocator has one lock for all that a thread has allocated; what both allocated is freed last.
pub fn drop_all<R: Threads>(rt: &R, described: Box<Described>, answers: Answers) {
    let Answers {
        one,
        two,
        journal,
        mut receipts,
    } = answers;
    let high_receipts = receipts.pop();
    let going = Going::start(rt, (one, receipts));
    {
        let _gone = (two, high_receipts);
    }
    going.wait(rt);
    let _gone = (described, journal);
}
