//! The buffers of a message: its own, or those of a token that came whole.

ghost use Rattle.std.specs.Prelude.{◌≡◌, ◌++◌, ℕ, List, MatchOption, None, Some};
ghost use Rattle.krb_crypto.specs.Keyed.{IsHmacOf};
ghost use Rattle.sspi_core.specs.Messages.{find_part};
ghost use Rattle.sspi_core.specs.declared.buffer.Part.TheVariants as parts;
ghost use Rattle.krb_context.specs.Spelled.{spelled, has_part, covered};
ghost use Rattle.krb_context.specs.Whole.{no_data, whole_message};

use crate::open::update_covered;
use crate::text::{TokenText, has_part, token_text};
use krb_crypto::HmacState;
use krb_der::Octets;
use sspi_core::{Message, Part, SecurityBufferRef};
use std::alloc::Global;
use std::marker::Model;

/// A token that came whole, and an empty buffer for its text.
#[derive(Drop)]
struct Whole<'a> {
    token: &'a [u8],
    plain: SecurityBufferRef,
    ghost empty: { plain ≡ no_data },
}

/// The place of a message's octets.
#[derive(Drop)]
enum Source<'a> {
    Message(&'a Message),
    Token(Whole<'a>),
}

/// The buffers of a message. Contracts see their list.
#[derive(Drop)]
pub(crate) struct Buffers<'a> {
    source: Source<'a>,
}

impl<'a> Model for Buffers<'a> {
    ghost use Rattle.std.specs.Prelude.{List};
    ghost use Rattle.sspi_core.specs.Buffer.{Buffer};
    ghost use Rattle.krb_context.specs.Sources.{buffers_of};

    ghost Value = { List Buffer };

    ghost view = { λ buffers. buffers_of buffers.source };
}

impl<'a> Buffers<'a> {
    pub(crate) fn of(message: &'a Message) -> Buffers<'a>
        ensures { result ≡ message.now }
    {
        Buffers {
            source: Source::Message(message),
        }
    }

    /// The buffers of a token that came whole. They take no memory.
    pub(crate) fn whole(alloc: Global, token: &'a [u8]) -> Buffers<'a>
        ensures { result ≡ whole_message token.now }
    {
        let plain = SecurityBufferRef::data_buf(Octets::new(Vec::new(alloc)), 0);
        Buffers {
            source: Source::Token(Whole { token, plain }),
        }
    }

    #[tactic(auto, unfolding(crate::specs::Spelled::spelled))]
    pub(crate) fn text(&self) -> TokenText<'_>
        ensures { result ≡ spelled self.now }
    {
        match &self.source {
            Source::Message(message) => token_text(message),
            Source::Token(whole) => TokenText::whole(whole.token),
        }
    }

    pub(crate) fn plain(&self) -> Option<&SecurityBufferRef>
        ensures { MatchOption result (find_part parts.Plain self.now ≡ None) (λ b. find_part parts.Plain self.now ≡ Some b.now) }
    {
        match &self.source {
            Source::Message(message) => message.find(Part::Plain),
            Source::Token(whole) => Some(&whole.plain),
        }
    }

    pub(crate) fn has_stream(&self) -> bool
        ensures { result ≡ has_part parts.Stream self.now }
    {
        match &self.source {
            Source::Message(message) => has_part(message, Part::Stream),
            Source::Token(_) => true,
        }
    }

    /// All data go into the code, the plain text in the place of the plain data.
    pub(crate) fn update_covered(&self, state: &mut HmacState, plain: &[u8])
        ensures { (key message : List ℕ) → IsHmacOf key message state.old → IsHmacOf key (message ++ covered plain.now self.now) state.new }
    {
        match &self.source {
            Source::Message(message) => update_covered(state, message.buffers(), plain),
            Source::Token(_) => state.update(plain),
        }
    }
}
