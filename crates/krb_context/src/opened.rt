//! A text that was decrypted.

ghost use Rattle.std.specs.Prelude.{◌≡◌, ◌-◌, ◌≤◌, take, drop, vec_len};

use krb_der::Octets;
use std::marker::Model;

/// A text in the middle of the octets that it was decrypted with. Contracts see the text.
#[derive(Drop)]
pub struct OpenedText {
    whole: Vec<u8>,
    start: usize,
    end: usize,
}

impl Model for OpenedText {
    ghost use Rattle.std.specs.Prelude.{List, ℕ, ◌-◌, ◌≤◌, length, take, drop};

    ghost Value = { List ℕ };

    ghost view = { λ text. take (text.end - text.start) (drop text.start text.whole.items) };

    ghost invariant = { λ text. (text.start ≤ text.end) × (text.end ≤ length text.whole.items) };
}

impl OpenedText {
    /// The octets from `start` to `end`.
    pub(crate) fn new(whole: Vec<u8>, start: usize, end: usize) -> OpenedText
        requires order { start ≤ end }
        requires within { end ≤ vec_len whole }
        ensures { result ≡ take (end - start) (drop start whole.items) }
    {
        OpenedText { whole, start, end }
    }

    /// Returns the text.
    pub fn as_slice(&self) -> &[u8]
        ensures { result.now ≡ self.now }
    {
        &self.whole[self.start..self.end]
    }

    /// Returns the text, moved to the front of its memory.
    pub fn into_octets(self) -> Octets
        ensures { result ≡ self }
    {
        let OpenedText { whole, start, end } = self;
        Octets::new(middle_of(whole, start, end))
    }
}

/// The octets from `start` to `end`.
pub(crate) fn middle_of(text: Vec<u8>, start: usize, end: usize) -> Vec<u8>
    requires order { start ≤ end }
    requires within { end ≤ vec_len text }
    ensures items { result.items ≡ take (end - start) (drop start text.items) }
    ensures size { vec_len result ≡ end - start }
{
    let mut middle = text;
    if start > 0 {
        middle.as_mut_slice().copy_within(start..end, 0);
    }
    middle.truncate(end - start);
    middle
}
