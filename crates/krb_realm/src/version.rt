//! The version of the program.

/// The newest entry of `CHANGELOG.md` has it too.
pub const VERSION: &str = "0.1.0";
