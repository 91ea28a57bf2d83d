//! The one version, of the program and of the crates that it is made of.

/// The newest entry of `CHANGELOG.md` has it too.
pub const VERSION: &str = "0.1.0";
