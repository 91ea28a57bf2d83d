//! The end of the reading of an input.

/// The reason why no more lines are read.
#[derive(Clone, Copy, Debug, PartialEq, Eq)]
pub enum Ending {
    /// The input is at its end.
    Whole,
    /// The next line is outside the table, or does not meet its conditions.
    Bad,
    /// The next line is longer than it may be.
    Long,
    /// A read failed.
    Fault,
    OutOfMemory,
}
