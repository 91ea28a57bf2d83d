//! An end of a connection, and its data once both ends agree.

ghost use Rattle.std.specs.Prelude.{◌≡◌, ◌≤◌, ◌<◌, ◌^◌, length, Ok, IfOk, IfErr, OnOk, OnErr};
ghost use Rattle.krb_sasl.specs.Answers.{Answers};
ghost use Rattle.krb_sasl.specs.Channels.{
  MakesInLayer,
  OpensInLayer,
  Readies,
  Seals,
  Unframes,
  Unseals,
  has_flags,
  context_after_making,
  channel_after_opening,
  sealed_by,
  unsealed_by,
};
ghost use Rattle.std.specs.Result.{result_map_both};
ghost use Rattle.krb_context.specs.Header.{is_sealed};
ghost use Rattle.krb_sasl.specs.declared.error.SaslError.TheVariants as refusals;
ghost use Rattle.sspi_core.specs.Checks.{Holds, Takes};
ghost use Rattle.krb_sasl.specs.Frames.{unframed};
ghost use Rattle.krb_sasl.specs.InContext.{InContext};
ghost use Rattle.krb_sasl.specs.Layers.{message_size, takes_message};
ghost use Rattle.krb_sasl.specs.Rooms.{Faults};
ghost use Rattle.krb_sasl.specs.Servers.{new_channel};
ghost use Rattle.krb_sasl.specs.Streams.{after_token};
ghost use Rattle.krb_sessions.specs.Gives.{Delivers};
ghost use Rattle.krb_sessions.specs.Orders.{UnwrapsInOrder};

use crate::checks::{hold, take};
use crate::clear::wrap_plain;
use crate::error::SaslError;
use crate::fault::SaslFault;
use crate::frame::unframed;
use crate::layer::Layer;
use crate::room::put;
use crate::stream::{unwrap, wrap_sealed};
use krb_context::Kerberos;
use krb_der::Octets;
use krb_messages::serialize_message;
use krb_sessions::Order;
use std::alloc::Global;

/// The agreement of both ends: the layer, and how many bytes of a message the peer receives at most.
#[derive(Clone, Copy, Debug, PartialEq, Eq)]
pub(crate) struct Agreement {
    pub(crate) layer: Layer,
    pub(crate) peer_size: u32,
}

/// One end: its context, how many bytes of a message it receives at most, the agreement, and the order of the messages it receives.
#[derive(Drop)]
pub(crate) struct Channel {
    pub(crate) context: Kerberos,
    pub(crate) size: u32,
    pub(crate) agreement: Option<Agreement>,
    /// Which of the peer's tokens is accepted next.
    pub(crate) order: Order,
}

impl Channel {
    /// Returns the end before the negotiation.
    pub(crate) fn new(context: Kerberos, size: u32) -> Channel
        ensures { result ≡ new_channel context size }
    {
        Channel {
            context,
            size,
            agreement: None,
            order: Order::FromFirst,
        }
    }

    /// Makes the message of a layer. If that fails the channel is unchanged.
    fn make(
        &mut self,
        alloc: Global,
        layer: Layer,
        plain: &[u8],
        confounder: [u8; 16],
    ) -> Result<Octets, SaslError>
        ensures made { Answers (MakesInLayer layer self.old.context confounder plain.now) result }
        ensures size { IfOk result (λ message. length message ≡ message_size layer self.old.context.encryption_params.ec (length plain.now)) }
        ensures after { OnOk result (self.new ≡ record self.old { context = context_after_making layer self.old.context }) }
        ensures stays { OnErr result (self.new ≡ self.old) }
    {
        match layer {
            Layer::None => Ok(Octets::from_slice(alloc, plain)?),
            Layer::Integrity => wrap_plain(alloc, &mut self.context, plain),
            Layer::Confidentiality => wrap_sealed(alloc, &mut self.context, plain, &confounder),
        }
    }

    /// Decrypts a token, if it is the next one, and returns its text. If that fails the channel is unchanged.
    pub(crate) fn take_token(&mut self, alloc: Global, token: &[u8]) -> Result<Octets, SaslError>
        ensures unwrapped { Answers (InContext (UnwrapsInOrder self.old.order self.old.context token.now)) result }
        ensures after { OnOk result (self.new ≡ after_token self.old token.now) }
        ensures stays { OnErr result (self.new ≡ self.old) }
    {
        unwrap(alloc, &mut self.context, &mut self.order, token)
    }

    /// Returns the data of a message. If that fails the channel is unchanged.
    fn open(&mut self, alloc: Global, layer: Layer, message: &[u8]) -> Result<Octets, SaslError>
        ensures opened { Answers (OpensInLayer layer self.old message.now) result }
        ensures after { OnOk result (self.new ≡ channel_after_opening layer self.old message.now) }
        ensures stays { OnErr result (self.new ≡ self.old) }
    {
        match layer {
            Layer::None => Ok(Octets::from_slice(alloc, message)?),
            _ => self.take_token(alloc, message),
        }
    }

    fn check_room(&self, agreement: Agreement, len: usize) -> Result<(), SaslError>
        requires { len < 2 ^ 63 }
        ensures room { Holds refusals.TooLarge (takes_message agreement.layer agreement.peer_size
            (message_size agreement.layer self.now.context.encryption_params.ec len)) result }
        ensures short { OnOk result (message_size agreement.layer self.now.context.encryption_params.ec len < 2 ^ 32) }
    {
        let ec = self.context.encryption_params.ec;
        let size = agreement.layer.message_size(ec, len);
        hold(
            agreement.layer.takes(agreement.peer_size, size),
            SaslError::TooLarge,
        )
    }

    /// Returns the agreement, once the peer receives the message of `len` bytes.
    #[tactic(auto, using(sspi_core::proofs::Chain::plain_chain), unfolding(crate::specs::Channels::Readies))]
    fn ready_to_seal(&self, len: usize) -> Result<Agreement, SaslError>
        requires { len < 2 ^ 63 }
        ensures ready { Readies self.now len result }
        ensures short { IfOk result (λ agreement. message_size agreement.layer self.now.context.encryption_params.ec len < 2 ^ 32) }
    {
        let agreement = take(self.agreement, SaslError::State)?;
        self.check_room(agreement, len)?;
        Ok(agreement)
    }

    /// Wraps data into a frame. If that fails the channel is unchanged.
    pub(crate) fn seal(
        &mut self,
        alloc: Global,
        plain: &[u8],
        confounder: [u8; 16],
    ) -> Result<Octets, SaslError>
        ensures sealed { Answers (Seals self.old confounder plain.now) result }
        ensures after { OnOk result (self.new ≡ sealed_by self.old) }
        ensures stays { OnErr result (self.new ≡ self.old) }
    {
        let agreement = self.ready_to_seal(plain.len())?;
        let number = self.context.seq_number;
        let message = self.make(alloc, agreement.layer, plain, confounder)?;
        match serialize_message(alloc, message.as_slice()) {
            Ok(frame) => Ok(frame),
            Err(error) => {
                self.context.seq_number = number;
                Err(SaslError::from(error))
            }
        }
    }

    /// Wraps data into a frame in a buffer. If the buffer is too short nothing is changed.
    pub(crate) fn seal_to(
        &mut self,
        alloc: Global,
        plain: &[u8],
        confounder: [u8; 16],
        out: &mut [u8],
    ) -> Result<usize, SaslFault>
        ensures gives { IfOk result (λ count. Delivers (λ frame. Seals self.old confounder plain.now (Ok frame)) out.old count out.new) }
        ensures after { OnOk result (self.new ≡ sealed_by self.old) }
        ensures refused { IfErr result (Faults (Seals self.old confounder plain.now) (λ frame. Seals self.old confounder plain.now (Ok frame)) (length out.old)) }
        ensures stays { OnErr result (self.new ≡ self.old) }
        ensures room { OnErr result (out.new ≡ out.old) }
    {
        let number = self.context.seq_number;
        let frame = self.seal(alloc, plain, confounder)?;
        match put(out, frame.as_slice()) {
            Ok(count) => Ok(count),
            Err(fault) => {
                self.context.seq_number = number;
                Err(fault)
            }
        }
    }

    fn check_size(&self, layer: Layer, message: &[u8]) -> Result<(), SaslError>
        ensures { Holds refusals.TooLarge (takes_message layer self.now.size (length message.now)) result }
    {
        hold(
            layer.takes(self.size, message.len() as u64),
            SaslError::TooLarge,
        )
    }

    /// Returns the message of a frame, and its layer, once both are checked.
    fn unframe<'a>(&self, frame: &'a [u8]) -> Result<(Layer, &'a [u8]), SaslError>
        ensures { Unframes self.now frame.now (result_map_both (λ x. (x.0, x.1.now)) (λ e. e) result) }
    {
        let agreement = take(self.agreement, SaslError::State)?;
        let message = message_of(frame)?;
        self.check_size(agreement.layer, message)?;
        check_flags(agreement.layer, message)?;
        Ok((agreement.layer, message))
    }

    /// Unwraps the data of a frame. If that fails the channel is unchanged.
    pub(crate) fn unseal(&mut self, alloc: Global, frame: &[u8]) -> Result<Octets, SaslError>
        ensures unsealed { Answers (Unseals self.old frame.now) result }
        ensures after { OnOk result (self.new ≡ unsealed_by self.old frame.now) }
        ensures stays { OnErr result (self.new ≡ self.old) }
    {
        let (layer, message) = self.unframe(frame)?;
        self.open(alloc, layer, message)
    }

    /// Unwraps the data of a frame into a buffer. If the buffer is too short nothing is changed.
    pub(crate) fn unseal_to(
        &mut self,
        alloc: Global,
        frame: &[u8],
        out: &mut [u8],
    ) -> Result<usize, SaslFault>
        ensures gives { IfOk result (λ count. Delivers (λ plain. Unseals self.old frame.now (Ok plain)) out.old count out.new) }
        ensures after { OnOk result (self.new ≡ unsealed_by self.old frame.now) }
        ensures refused { IfErr result (Faults (Unseals self.old frame.now) (λ plain. Unseals self.old frame.now (Ok plain)) (length out.old)) }
        ensures stays { OnErr result (self.new ≡ self.old) }
        ensures room { OnErr result (out.new ≡ out.old) }
    {
        let window = self.context.window;
        let order = self.order;
        let plain = self.unseal(alloc, frame)?;
        match put(out, plain.as_slice()) {
            Ok(count) => Ok(count),
            Err(fault) => {
                self.context.window = window;
                self.order = order;
                Err(fault)
            }
        }
    }
}

fn message_of(frame: &[u8]) -> Result<&[u8], SaslError>
    ensures { Takes refusals.Frame (unframed frame.now) (result_map_both (λ message. message.now) (λ e. e) result) }
{
    match unframed(frame) {
        Some(message) => Ok(message),
        None => Err(SaslError::Frame),
    }
}

fn is_sealed(message: &[u8]) -> bool
    requires { 3 ≤ length message.now }
    ensures { result ≡ is_sealed message.now }
{
    !(message[2] & 2 == 0)
}

/// Returns whether a message that has flags has those of the layer.
fn has_flags(layer: Layer, message: &[u8]) -> bool
    ensures { result ≡ has_flags layer message.now }
{
    match layer {
        Layer::None => true,
        Layer::Integrity => message.len() < 3 || !is_sealed(message),
        Layer::Confidentiality => message.len() < 3 || is_sealed(message),
    }
}

fn check_flags(layer: Layer, message: &[u8]) -> Result<(), SaslError>
    ensures { Holds refusals.Frame (has_flags layer message.now) result }
{
    hold(has_flags(layer, message), SaslError::Frame)
}
