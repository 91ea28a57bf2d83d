//! Pauses.

/// A call that a worker makes before each admission. It returns, and nothing else is known of it.
pub trait Pause {
    fn before(&mut self);
}

/// No pause.
#[derive(Drop)]
pub struct NoPause;

impl Pause for NoPause {
    fn before(&mut self) {}
}
