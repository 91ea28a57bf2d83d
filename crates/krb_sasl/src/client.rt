//! The client.

ghost use Rattle.std.specs.Prelude.{◌≡◌, ◌≤◌, List, ℕ, length, IfOk, IfErr, OnOk, OnErr, Ok, is_none, true};
ghost use Rattle.krb_sasl.specs.declared.error.SaslError.TheVariants as refusals;
ghost use Rattle.krb_sasl.specs.Answers.{Answers, Refuses};
ghost use Rattle.sspi_core.specs.Checks.{Holds};
ghost use Rattle.krb_sasl.specs.Channels.{Seals, Unseals, sealed_by, unsealed_by};
ghost use Rattle.krb_sasl.specs.Clients.{MayWish, Wishes, Suits, Reads, AnswersOffer, answered_by, channel_of, with_channel};
ghost use Rattle.krb_context.specs.ClearWraps.{WrapsClear};
ghost use Rattle.krb_sasl.specs.InContext.{InContext};
ghost use Rattle.krb_sasl.specs.Rooms.{Faults, AnswersWith, IsAnswerTo, kept_by};
ghost use Rattle.krb_sasl.specs.Servers.{is_of_text, left_by, ordered};
ghost use Rattle.krb_sasl.specs.Streams.{sent_from, after_token};
ghost use Rattle.krb_sasl.specs.Texts.{answer_text};
ghost use Rattle.krb_sessions.specs.Gives.{Delivers};

use crate::channel::{Agreement, Channel};
use crate::checks::hold;
use crate::clear::wrap_plain;
use crate::error::SaslError;
use crate::fault::SaslFault;
use crate::layer::{Layer, is_wish};
use crate::room::put;
use crate::texts::{answer_text, is_offer_text, offers_layer, size_in};
use krb_context::Kerberos;
use krb_der::{Octets, Text};
use krb_sessions::Order;
use std::alloc::Global;

/// The client of a connection: it answers an offer with its own layer and its user's name.
#[derive(Drop)]
pub struct SaslClient {
    channel: Channel,
    wanted: Layer,
    name: Text,
}

/// Returns the name of a new client's user, once its layer, its size and its context are checked.
#[tactic(auto, using(crate::proofs::Chain::chain), unfolding(crate::specs::Clients::MayWish))]
fn wished_name(
    alloc: Global,
    context: &Kerberos,
    wanted: Layer,
    size: u32,
    name: &str,
) -> Result<Text, SaslError>
    ensures { Answers (MayWish context.now wanted size name.now) result }
{
    hold(is_wish(wanted, size), SaslError::Layers)?;
    hold(context.state.is_final(), SaslError::State)?;
    Ok(Text::from_str(alloc, name)?)
}

/// Checks the text of an offer, for a client of this layer.
#[tactic(auto, using(sspi_core::proofs::Chain::plain_chain), unfolding(crate::specs::Clients::Suits))]
fn suits(wanted: Layer, text: &[u8]) -> Result<(), SaslError>
    ensures suits { Suits wanted text.now result }
    ensures long { OnOk result (4 ≤ length text.now) }
    ensures of_text { IfErr result (λ refusal. is_of_text refusal ≡ true) }
{
    hold(is_offer_text(text), SaslError::Offer)?;
    hold(offers_layer(text, wanted), SaslError::Layer)
}

impl SaslClient {
    /// Returns the client on a context whose exchange is over, with this layer. It receives messages of `size` bytes at most, and its
    /// user has this name.
    ///
    /// Fails, in this order, with `Layers` if the size is 2^24 or more, or if no layer is chosen with a size; `State` if the
    /// exchange of the context is not over.
    #[tactic(auto, using(crate::proofs::Chain::chain), unfolding(crate::specs::Clients::Wishes))]
    pub fn new(
        alloc: Global,
        context: Kerberos,
        wanted: Layer,
        size: u32,
        name: &str,
    ) -> Result<SaslClient, SaslError>
        ensures { Answers (Wishes context wanted size name.now) result }
    {
        match wished_name(alloc, &context, wanted, size, name) {
            Ok(name) => Ok(SaslClient {
                channel: Channel::new(context, size),
                wanted,
                name,
            }),
            Err(refusal) => Err(refusal),
        }
    }

    /// Accepts the peer's tokens in this order from now on: a session's [`in_order`](krb_sessions::Session::in_order) has the number
    /// that its client begins with. A new end accepts them in order from the first that it decrypts.
    pub fn set_order(&mut self, order: Order)
        ensures { self.new ≡ with_channel self.old (ordered order (channel_of self.old)) }
    {
        self.channel.order = order;
    }

    fn check_unanswered(&self) -> Result<(), SaslError>
        ensures { Holds refusals.State (is_none self.now.channel.agreement) result }
    {
        hold(self.channel.agreement.is_none(), SaslError::State)
    }

    /// Returns the text of an offer, once it is checked.
    fn read_offer(&mut self, alloc: Global, offer: &[u8]) -> Result<Octets, SaslError>
        ensures read { Answers (Reads self.old offer.now) result }
        ensures long { IfOk result (λ text. 4 ≤ length text) }
        ensures after { OnOk result (
            self.new ≡ with_channel self.old (after_token (channel_of self.old) offer.now)) }
        ensures left { IfErr result (λ refusal. self.new ≡ with_channel self.old (left_by refusal (channel_of self.old) offer.now)) }
    {
        self.check_unanswered()?;
        let text = self.channel.take_token(alloc, offer)?;
        suits(self.wanted, text.as_slice())?;
        Ok(text)
    }

    /// Returns the token of the answer to an offer.
    ///
    /// Fails, in this order, with `State` if an answer was given before; `Context`; `Offer` if the text has not four bytes; `Layer`
    /// if the client's layer is not offered, or no layer alone with a size. If it fails the client is unchanged, except that after
    /// `Offer` and `Layer` the token's number is kept.
    pub fn answer(&mut self, alloc: Global, offer: &[u8]) -> Result<Octets, SaslError>
        ensures answered { IfOk result (λ token. (text : List ℕ) × AnswersOffer self.old offer.now (Ok (token, text))
            × (self.new ≡ answered_by self.old offer.now text)) }
        ensures refused { IfErr result (λ refusal. Refuses (AnswersOffer self.old offer.now) refusal) }
        ensures left { IfErr result (λ refusal. self.new ≡ with_channel self.old (left_by refusal (channel_of self.old) offer.now)) }
    {
        let window = self.channel.context.window;
        let order = self.channel.order;
        let text = self.read_offer(alloc, offer)?;
        match self.write_answer(alloc) {
            Ok(token) => {
                self.channel.agreement = Some(Agreement {
                    layer: self.wanted,
                    peer_size: size_in(text.as_slice()),
                });
                Ok(token)
            }
            Err(refusal) => {
                self.channel.context.window = window;
                self.channel.order = order;
                Err(refusal)
            }
        }
    }

    /// Puts the token of the answer to an offer into the caller's buffer. Fails as `answer` does, and leaves the client as `answer`
    /// does. If the buffer is too short the call fails with the length of the token, and nothing is changed.
    pub fn answer_to(
        &mut self,
        alloc: Global,
        offer: &[u8],
        out: &mut [u8],
    ) -> Result<usize, SaslFault>
        ensures gives { IfOk result (λ count. Delivers (λ token. AnswersWith self.old offer.now token self.new) out.old count out.new) }
        ensures refused { IfErr result (Faults (AnswersOffer self.old offer.now) (IsAnswerTo self.old offer.now) (length out.old)) }
        ensures left { IfErr result (λ fault. self.new ≡ with_channel self.old (kept_by fault (channel_of self.old) offer.now)) }
        ensures room { OnErr result (out.new ≡ out.old) }
    {
        let number = self.channel.context.seq_number;
        let window = self.channel.context.window;
        let order = self.channel.order;
        let agreement = self.channel.agreement;
        let token = self.answer(alloc, offer)?;
        match put(out, token.as_slice()) {
            Ok(count) => Ok(count),
            Err(fault) => {
                self.channel.context.seq_number = number;
                self.channel.context.window = window;
                self.channel.order = order;
                self.channel.agreement = agreement;
                Err(fault)
            }
        }
    }

    /// Returns the token of the answer, whatever was offered.
    fn write_answer(&mut self, alloc: Global) -> Result<Octets, SaslError>
        ensures written { Answers (InContext (WrapsClear self.old.channel.context
            (answer_text self.old.wanted self.old.channel.size self.old.name))) result }
        ensures after { OnOk result (self.new ≡ record self.old { channel = record self.old.channel { context = sent_from self.old.channel.context } }) }
        ensures stays { OnErr result (self.new ≡ self.old) }
    {
        let text = answer_text(alloc, self.wanted, self.channel.size, self.name.as_str())?;
        wrap_plain(alloc, &mut self.channel.context, text.as_slice())
    }

    /// Wraps data into a frame. The confounder is 16 random bytes, which are used if the layer encrypts.
    ///
    /// Fails, in this order, with `State` before an answer was given; `TooLarge` if the message would be longer than the server
    /// receives, or, without a layer, the data have 2^24 bytes or more; `Context`. If it fails the client is unchanged.
    pub fn seal(
        &mut self,
        alloc: Global,
        plain: &[u8],
        confounder: [u8; 16],
    ) -> Result<Octets, SaslError>
        ensures sealed { Answers (Seals (channel_of self.old) confounder plain.now) result }
        ensures after { OnOk result (self.new ≡ with_channel self.old (sealed_by (channel_of self.old))) }
        ensures stays { OnErr result (self.new ≡ self.old) }
    {
        self.channel.seal(alloc, plain, confounder)
    }

    /// Unwraps the data of a frame.
    ///
    /// Fails, in this order, with `State` before an answer was given; `Frame` if the bytes are not one frame; `TooLarge` if its
    /// message is longer than the client receives, or, without a layer, has 2^24 bytes or more; `Frame` if the message is not of the
    /// layer; `Context`. If it fails the client is unchanged.
    pub fn unseal(&mut self, alloc: Global, frame: &[u8]) -> Result<Octets, SaslError>
        ensures unsealed { Answers (Unseals (channel_of self.old) frame.now) result }
        ensures after { OnOk result (self.new ≡ with_channel self.old (unsealed_by (channel_of self.old) frame.now)) }
        ensures stays { OnErr result (self.new ≡ self.old) }
    {
        self.channel.unseal(alloc, frame)
    }

    /// Wraps data into a frame in the caller's buffer. Fails as `seal` does. If the buffer is too short the call fails with the
    /// length of the frame, and nothing is changed.
    pub fn seal_to(
        &mut self,
        alloc: Global,
        plain: &[u8],
        confounder: [u8; 16],
        out: &mut [u8],
    ) -> Result<usize, SaslFault>
        ensures gives { IfOk result (λ count. Delivers (λ frame. Seals (channel_of self.old) confounder plain.now (Ok frame)) out.old count out.new) }
        ensures after { OnOk result (self.new ≡ with_channel self.old (sealed_by (channel_of self.old))) }
        ensures refused { IfErr result (Faults (Seals (channel_of self.old) confounder plain.now)
            (λ frame. Seals (channel_of self.old) confounder plain.now (Ok frame)) (length out.old)) }
        ensures stays { OnErr result (self.new ≡ self.old) }
        ensures room { OnErr result (out.new ≡ out.old) }
    {
        self.channel.seal_to(alloc, plain, confounder, out)
    }

    /// Unwraps the data of a frame into the caller's buffer. Fails as `unseal` does. If the buffer is too short the call fails with
    /// the length of the data, and nothing is changed.
    pub fn unseal_to(
        &mut self,
        alloc: Global,
        frame: &[u8],
        out: &mut [u8],
    ) -> Result<usize, SaslFault>
        ensures gives { IfOk result (λ count. Delivers (λ plain. Unseals (channel_of self.old) frame.now (Ok plain)) out.old count out.new) }
        ensures after { OnOk result (self.new ≡ with_channel self.old (unsealed_by (channel_of self.old) frame.now)) }
        ensures refused { IfErr result (Faults (Unseals (channel_of self.old) frame.now)
            (λ plain. Unseals (channel_of self.old) frame.now (Ok plain)) (length out.old)) }
        ensures stays { OnErr result (self.new ≡ self.old) }
        ensures room { OnErr result (out.new ≡ out.old) }
    {
        self.channel.unseal_to(alloc, frame, out)
    }
}
