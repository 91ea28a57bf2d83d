//! The order of a peer's messages.

ghost use Rattle.std.specs.Prelude.{◌≡◌, ◌≤◌, length, OnOk, OnErr};
ghost use Rattle.krb_sessions.specs.Orders.{awaits, order_after, token_number};
ghost use Rattle.sspi_core.specs.Checks.{Holds};
ghost use Rattle.sspi_core.specs.declared.cause.Cause.TheVariants as causes;

use sspi_core::Cause;

/// Which of a peer's messages is accepted next (RFC 2743, section 1.2.3). Encrypted, clear and MIC tokens have numbers of one count
/// (RFC 4121, section 4.2.6). The count wraps at 2^32: a number is the low four bytes of `SND_SEQ`, since peers differ in the bytes
/// that they write before them.
#[derive(Clone, Copy, Debug, PartialEq, Eq)]
pub enum Order {
    /// Messages are accepted in any order.
    Any,
    /// The first message that decrypts sets the count. Messages before it may have been dropped.
    FromFirst,
    /// Only the message of this number is accepted.
    Next(u32),
}

impl Order {
    /// Returns whether a message of this number is accepted.
    pub fn awaits(self, number: u32) -> bool
        ensures { result ≡ awaits self number }
    {
        match self {
            Order::Any | Order::FromFirst => true,
            Order::Next(next) => number == next,
        }
    }

    /// Returns the order after a message of this number was accepted.
    pub fn after(self, number: u32) -> Order
        ensures { result ≡ order_after number self }
    {
        match self {
            Order::Any => Order::Any,
            Order::FromFirst | Order::Next(_) => Order::Next(number.wrapping_add(1)),
        }
    }

    /// Accepts a message of this number, or fails with `Number`.
    pub(crate) fn take(&mut self, number: u32) -> Result<(), Cause>
        ensures awaited { Holds causes.Number (awaits self.old number) result }
        ensures after { OnOk result (self.new ≡ order_after number self.old) }
        ensures stays { OnErr result (self.new ≡ self.old) }
    {
        if !self.awaits(number) {
            return Err(Cause::Number);
        }
        *self = self.after(number);
        Ok(())
    }
}

/// Returns the number in the header of a token.
pub(crate) fn token_number(token: &[u8]) -> u32
    requires { 16 ≤ length token.now }
    ensures { result ≡ token_number token.now }
{
    let header = &token[..16];
    u32::from_be_bytes([header[12], header[13], header[14], header[15]])
}
