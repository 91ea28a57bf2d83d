//! The server.

ghost use Rattle.std.specs.Prelude.{◌≡◌, ◌≤◌, List, ℕ, length, IfOk, IfErr, OnOk, OnErr, Ok, true};
ghost use Rattle.krb_sasl.specs.declared.error.SaslError.TheVariants as refusals;
ghost use Rattle.krb_sasl.specs.declared.layer.Layer.{Layer};
ghost use Rattle.krb_sasl.specs.Answers.{Answers, Refuses};
ghost use Rattle.sspi_core.specs.Checks.{Holds};
ghost use Rattle.krb_sasl.specs.Channels.{Seals, Unseals, sealed_by, unsealed_by};
ghost use Rattle.krb_sasl.specs.Rooms.{Faults, Names, IsNameIn, kept_by};
ghost use Rattle.krb_sasl.specs.Servers.{MayServe, Serves, Offers, offered_by, awaits_answer, channel_of, with_channel, Chooses, Accepts, accepted_by, is_of_text, left_by, ordered};
ghost use Rattle.krb_sasl.specs.Streams.{after_token};
ghost use Rattle.krb_sasl.specs.Texts.{name_in};
ghost use Rattle.krb_sessions.specs.Gives.{Delivers};

use crate::channel::{Agreement, Channel};
use crate::checks::{hold, take};
use crate::clear::wrap_plain;
use crate::error::SaslError;
use crate::fault::SaslFault;
use crate::layer::{Layer, is_offer};
use crate::room::put;
use crate::texts::{chosen_layer, is_answer_text, name_of, offer_text, size_in};
use krb_context::Kerberos;
use krb_der::Octets;
use krb_sessions::Order;
use std::alloc::Global;

/// The server of a connection: it offers layers, and accepts the answer of a client.
#[derive(Drop)]
pub struct SaslServer {
    channel: Channel,
    layers: u8,
    has_offered: bool,
}

/// Checks the context, the layers and the size of a new server.
#[tactic(auto, using(sspi_core::proofs::Chain::plain_chain), unfolding(crate::specs::Servers::MayServe))]
fn check_new(context: &Kerberos, layers: u8, size: u32) -> Result<(), SaslError>
    ensures { MayServe context.now layers size result }
{
    hold(is_offer(layers, size), SaslError::Layers)?;
    hold(context.state.is_final(), SaslError::State)
}

/// Returns the layer that an answer with this text chooses from these.
#[tactic(auto, using(sspi_core::proofs::Chain::plain_chain), unfolding(crate::specs::Servers::Chooses))]
fn choose(layers: u8, text: &[u8]) -> Result<Layer, SaslError>
    ensures chosen { Chooses layers text.now result }
    ensures long { OnOk result (4 ≤ length text.now) }
    ensures of_text { IfErr result (λ refusal. is_of_text refusal ≡ true) }
{
    hold(is_answer_text(text), SaslError::Offer)?;
    take(chosen_layer(layers, text), SaslError::Layer)
}

impl SaslServer {
    /// Returns the server on a context whose exchange is over. It offers these layers, the sum of their octets, and receives
    /// messages of `size` bytes at most.
    ///
    /// Fails, in this order, with `Layers` if there are no layers or unknown ones, if the size is 2^24 or more, or if no layer alone
    /// is offered with a size; `State` if the exchange of the context is not over.
    #[tactic(auto, using(sspi_core::proofs::Chain::plain_chain), unfolding(crate::specs::Servers::Serves))]
    pub fn new(context: Kerberos, layers: u8, size: u32) -> Result<SaslServer, SaslError>
        ensures { Serves context layers size result }
    {
        match check_new(&context, layers, size) {
            Ok(()) => Ok(SaslServer {
                channel: Channel::new(context, size),
                layers,
                has_offered: false,
            }),
            Err(refusal) => Err(refusal),
        }
    }

    /// Returns the token of the offer. Fails, in this order, with `State` if it was given before; `Context`. If it fails the server is
    /// unchanged.
    #[tactic(auto, using(crate::proofs::Chain::chain), unfolding(crate::specs::Servers::Offers))]
    pub fn offer(&mut self, alloc: Global) -> Result<Octets, SaslError>
        ensures offered { Answers (Offers self.old) result }
        ensures after { OnOk result (self.new ≡ offered_by self.old) }
        ensures stays { OnErr result (self.new ≡ self.old) }
    {
        hold(!self.has_offered, SaslError::State)?;
        let text = offer_text(self.layers, self.channel.size);
        let token = wrap_plain(alloc, &mut self.channel.context, &text)?;
        self.has_offered = true;
        Ok(token)
    }

    /// Puts the token of the offer into the caller's buffer. Fails as `offer` does. If the buffer is too short the call fails with the
    /// length of the token, and nothing is changed.
    pub fn offer_to(&mut self, alloc: Global, out: &mut [u8]) -> Result<usize, SaslFault>
        ensures gives { IfOk result (λ count. Delivers (λ token. Offers self.old (Ok token)) out.old count out.new) }
        ensures after { OnOk result (self.new ≡ offered_by self.old) }
        ensures refused { IfErr result (Faults (Offers self.old) (λ token. Offers self.old (Ok token)) (length out.old)) }
        ensures stays { OnErr result (self.new ≡ self.old) }
        ensures room { OnErr result (out.new ≡ out.old) }
    {
        let number = self.channel.context.seq_number;
        let has_offered = self.has_offered;
        let token = self.offer(alloc)?;
        match put(out, token.as_slice()) {
            Ok(count) => Ok(count),
            Err(fault) => {
                self.channel.context.seq_number = number;
                self.has_offered = has_offered;
                Err(fault)
            }
        }
    }

    /// Accepts the peer's tokens in this order from now on: a session's [`in_order`](krb_sessions::Session::in_order) has the number
    /// that its client begins with. A new end accepts them in order from the first that it decrypts.
    pub fn set_order(&mut self, order: Order)
        ensures { self.new ≡ with_channel self.old (ordered order (channel_of self.old)) }
    {
        self.channel.order = order;
    }

    fn check_awaiting(&self) -> Result<(), SaslError>
        ensures { Holds refusals.State (awaits_answer self.now) result }
    {
        hold(
            self.has_offered && self.channel.agreement.is_none(),
            SaslError::State,
        )
    }

    /// Returns the text of an answer, and the layer that it chooses, once both are checked.
    fn read_answer(&mut self, alloc: Global, token: &[u8]) -> Result<(Octets, Layer), SaslError>
        ensures read { Answers (Accepts self.old token.now) result }
        ensures long { IfOk result (λ x. 4 ≤ length x.0) }
        ensures after { IfOk result (λ x.
            self.new ≡ with_channel self.old (after_token (channel_of self.old) token.now)) }
        ensures left { IfErr result (λ refusal. self.new ≡ with_channel self.old (left_by refusal (channel_of self.old) token.now)) }
    {
        self.check_awaiting()?;
        let text = self.channel.take_token(alloc, token)?;
        let layer = choose(self.layers, text.as_slice())?;
        Ok((text, layer))
    }

    /// Agrees to an answer, and returns the user's name.
    ///
    /// Fails, in this order, with `State` before the offer and after an answer was accepted; `Context`; `Offer` if the text is under
    /// four bytes or the name is not in UTF-8; `Layer` if it does not choose one offered layer, or no layer with a size. If it fails
    /// the server is unchanged, except that after `Offer` and `Layer` the token's number is kept.
    pub fn accept(&mut self, alloc: Global, token: &[u8]) -> Result<Octets, SaslError>
        ensures accepted { IfOk result (λ name. (text : List ℕ) × (layer : Layer) × Accepts self.old token.now (Ok (text, layer))
            × (name ≡ name_in text) × (self.new ≡ accepted_by self.old token.now text layer)) }
        ensures refused { IfErr result (λ refusal. Refuses (Accepts self.old token.now) refusal) }
        ensures left { IfErr result (λ refusal. self.new ≡ with_channel self.old (left_by refusal (channel_of self.old) token.now)) }
    {
        let (text, layer) = self.read_answer(alloc, token)?;
        self.channel.agreement = Some(Agreement {
            layer,
            peer_size: size_in(text.as_slice()),
        });
        Ok(name_of(text))
    }

    /// Agrees to an answer, and puts the user's name into the caller's buffer. Fails as `accept` does, and leaves the server as
    /// `accept` does. If the buffer is too short the call fails with the length of the name, and nothing is changed.
    pub fn accept_to(
        &mut self,
        alloc: Global,
        token: &[u8],
        out: &mut [u8],
    ) -> Result<usize, SaslFault>
        ensures gives { IfOk result (λ count. Delivers (λ name. Names self.old token.now name self.new) out.old count out.new) }
        ensures refused { IfErr result (Faults (Accepts self.old token.now) (IsNameIn self.old token.now) (length out.old)) }
        ensures left { IfErr result (λ fault. self.new ≡ with_channel self.old (kept_by fault (channel_of self.old) token.now)) }
        ensures room { OnErr result (out.new ≡ out.old) }
    {
        let window = self.channel.context.window;
        let order = self.channel.order;
        let agreement = self.channel.agreement;
        let name = self.accept(alloc, token)?;
        match put(out, name.as_slice()) {
            Ok(count) => Ok(count),
            Err(fault) => {
                self.channel.context.window = window;
                self.channel.order = order;
                self.channel.agreement = agreement;
                Err(fault)
            }
        }
    }

    /// Wraps data into a frame. The confounder is 16 random bytes, which are used if the layer encrypts.
    ///
    /// Fails, in this order, with `State` before an answer was accepted; `TooLarge` if the message would be longer than the client
    /// receives, or, without a layer, the data have 2^24 bytes or more; `Context`. If it fails the server is unchanged.
    pub fn seal(
        &mut self,
        alloc: Global,
        plain: &[u8],
        confounder: [u8; 16],
    ) -> Result<Octets, SaslError>
        ensures sealed { Answers (Seals (channel_of self.old) confounder plain.now) result }
        ensures after { OnOk result (self.new ≡ with_channel self.old (sealed_by (channel_of self.old))) }
        ensures stays { OnErr result (self.new ≡ self.old) }
    {
        self.channel.seal(alloc, plain, confounder)
    }

    /// Unwraps the data of a frame.
    ///
    /// Fails, in this order, with `State` before an answer was accepted; `Frame` if the bytes are not one frame; `TooLarge` if its
    /// message is longer than the server receives, or, without a layer, has 2^24 bytes or more; `Frame` if the message is not of the
    /// layer; `Context`. If it fails the server is unchanged.
    pub fn unseal(&mut self, alloc: Global, frame: &[u8]) -> Result<Octets, SaslError>
        ensures unsealed { Answers (Unseals (channel_of self.old) frame.now) result }
        ensures after { OnOk result (self.new ≡ with_channel self.old (unsealed_by (channel_of self.old) frame.now)) }
        ensures stays { OnErr result (self.new ≡ self.old) }
    {
        self.channel.unseal(alloc, frame)
    }

    /// Wraps data into a frame in the caller's buffer. Fails as `seal` does. If the buffer is too short the call fails with the
    /// length of the frame, and nothing is changed.
    pub fn seal_to(
        &mut self,
        alloc: Global,
        plain: &[u8],
        confounder: [u8; 16],
        out: &mut [u8],
    ) -> Result<usize, SaslFault>
        ensures gives { IfOk result (λ count. Delivers (λ frame. Seals (channel_of self.old) confounder plain.now (Ok frame)) out.old count out.new) }
        ensures after { OnOk result (self.new ≡ with_channel self.old (sealed_by (channel_of self.old))) }
        ensures refused { IfErr result (Faults (Seals (channel_of self.old) confounder plain.now)
            (λ frame. Seals (channel_of self.old) confounder plain.now (Ok frame)) (length out.old)) }
        ensures stays { OnErr result (self.new ≡ self.old) }
        ensures room { OnErr result (out.new ≡ out.old) }
    {
        self.channel.seal_to(alloc, plain, confounder, out)
    }

    /// Unwraps the data of a frame into the caller's buffer. Fails as `unseal` does. If the buffer is too short the call fails with
    /// the length of the data, and nothing is changed.
    pub fn unseal_to(
        &mut self,
        alloc: Global,
        frame: &[u8],
        out: &mut [u8],
    ) -> Result<usize, SaslFault>
        ensures gives { IfOk result (λ count. Delivers (λ plain. Unseals (channel_of self.old) frame.now (Ok plain)) out.old count out.new) }
        ensures after { OnOk result (self.new ≡ with_channel self.old (unsealed_by (channel_of self.old) frame.now)) }
        ensures refused { IfErr result (Faults (Unseals (channel_of self.old) frame.now)
            (λ plain. Unseals (channel_of self.old) frame.now (Ok plain)) (length out.old)) }
        ensures stays { OnErr result (self.new ≡ self.old) }
        ensures room { OnErr result (out.new ≡ out.old) }
    {
        self.channel.unseal_to(alloc, frame, out)
    }
}
