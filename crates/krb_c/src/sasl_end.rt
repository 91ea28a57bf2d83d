//! An end of a connection with a security layer: a server's or a client's.

ghost use Rattle.std.specs.Prelude.{◌≡◌, Some, Ok, length, IfOk, IfErr, OnOk, OnErr};
ghost use Rattle.krb_sasl.specs.Channels.{Seals, Unseals, sealed_by, unsealed_by};
ghost use Rattle.krb_sasl.specs.Rooms.{Faults};
ghost use Rattle.krb_sasl.specs.Servers.{ordered};
ghost use Rattle.krb_sessions.specs.Gives.{Delivers};
ghost use Rattle.krb_c.specs.Sasl.{
  GivesOffer,
  GivesName,
  GivesAnswer,
  GivesFrame,
  GivesData,
  RefusesOffer,
  RefusesName,
  RefusesAnswer,
  RefusesData,
  RefusesFrame,
  HasNoServer,
  HasNoClient,
  EndHandsNot,
  channel_of,
  with_channel,
  left_end,
};

use crate::sasl_reply::SaslFailure;
use krb_entrance::Order;
use krb_sasl::{SaslClient, SaslFault, SaslServer};
use std::alloc::Global;

/// An end that offers or accepts a layer, and then wraps and unwraps data.
#[derive(Drop)]
pub enum SaslEnd {
    Server(SaslServer),
    Client(SaslClient),
}

impl SaslEnd {
    /// Accepts the peer's tokens in this order from now on.
    pub(crate) fn set_order(&mut self, order: Order)
        ensures { self.new ≡ with_channel self.old (ordered order (channel_of self.old)) }
    {
        match self {
            SaslEnd::Server(server) => server.set_order(order),
            SaslEnd::Client(client) => client.set_order(order),
        }
    }

    /// Puts the token of a server's offer into `out`.
    pub(crate) fn offer(&mut self, alloc: Global, out: &mut [u8]) -> Result<usize, SaslFailure>
        ensures gives { IfOk result (λ count. Delivers (λ token. GivesOffer self.old token self.new) out.old count out.new) }
        ensures fails { IfErr result (EndHandsNot (HasNoServer (Some self.old)) RefusesOffer GivesOffer self.old (length out.old)) }
        ensures stays { OnErr result (self.new ≡ self.old) }
        ensures room { OnErr result (out.new ≡ out.old) }
    {
        let SaslEnd::Server(server) = self else {
            return Err(SaslFailure::Handle);
        };
        match server.offer_to(alloc, out) {
            Ok(count) => Ok(count),
            Err(fault) => Err(SaslFailure::from(fault)),
        }
    }

    /// Puts the user's name in the answer that a server accepts into `out`.
    pub(crate) fn accept(
        &mut self,
        alloc: Global,
        token: &[u8],
        out: &mut [u8],
    ) -> Result<usize, SaslFailure>
        ensures gives { IfOk result (λ count. Delivers (λ name. GivesName token.now self.old name self.new) out.old count out.new) }
        ensures fails { IfErr result (EndHandsNot (HasNoServer (Some self.old)) (RefusesName token.now) (GivesName token.now) self.old (length out.old)) }
        ensures left { IfErr result (λ failure. self.new ≡ left_end failure token.now self.old) }
        ensures room { OnErr result (out.new ≡ out.old) }
    {
        let SaslEnd::Server(server) = self else {
            return Err(SaslFailure::Handle);
        };
        match server.accept_to(alloc, token, out) {
            Ok(count) => Ok(count),
            Err(fault) => Err(SaslFailure::from(fault)),
        }
    }

    /// Puts the token of a client's answer to an offer into `out`.
    pub(crate) fn answer(
        &mut self,
        alloc: Global,
        offer: &[u8],
        out: &mut [u8],
    ) -> Result<usize, SaslFailure>
        ensures gives { IfOk result (λ count. Delivers (λ token. GivesAnswer offer.now self.old token self.new) out.old count out.new) }
        ensures fails { IfErr result (EndHandsNot (HasNoClient (Some self.old)) (RefusesAnswer offer.now) (GivesAnswer offer.now) self.old (length out.old)) }
        ensures left { IfErr result (λ failure. self.new ≡ left_end failure offer.now self.old) }
        ensures room { OnErr result (out.new ≡ out.old) }
    {
        let SaslEnd::Client(client) = self else {
            return Err(SaslFailure::Handle);
        };
        match client.answer_to(alloc, offer, out) {
            Ok(count) => Ok(count),
            Err(fault) => Err(SaslFailure::from(fault)),
        }
    }

    /// Puts the frame of data into `out`, and fails with the end's own errors.
    fn seal_to(
        &mut self,
        alloc: Global,
        plain: &[u8],
        confounder: [u8; 16],
        out: &mut [u8],
    ) -> Result<usize, SaslFault>
        ensures gives { IfOk result (λ count. Delivers (λ frame. Seals (channel_of self.old) confounder plain.now (Ok frame)) out.old count out.new) }
        ensures after { OnOk result (self.new ≡ with_channel self.old (sealed_by (channel_of self.old))) }
        ensures refused { IfErr result (Faults (Seals (channel_of self.old) confounder plain.now)
            (λ frame. Seals (channel_of self.old) confounder plain.now (Ok frame)) (length out.old)) }
        ensures stays { OnErr result (self.new ≡ self.old) }
        ensures room { OnErr result (out.new ≡ out.old) }
    {
        match self {
            SaslEnd::Server(server) => server.seal_to(alloc, plain, confounder, out),
            SaslEnd::Client(client) => client.seal_to(alloc, plain, confounder, out),
        }
    }

    /// Puts the frame of data into `out`.
    pub(crate) fn seal(
        &mut self,
        alloc: Global,
        plain: &[u8],
        confounder: [u8; 16],
        out: &mut [u8],
    ) -> Result<usize, SaslFailure>
        ensures gives { IfOk result (λ count. Delivers (λ frame. GivesFrame confounder plain.now self.old frame self.new) out.old count out.new) }
        ensures fails { IfErr result (EndHandsNot ⊥ (RefusesData confounder plain.now) (GivesFrame confounder plain.now) self.old (length out.old)) }
        ensures stays { OnErr result (self.new ≡ self.old) }
        ensures room { OnErr result (out.new ≡ out.old) }
    {
        match self.seal_to(alloc, plain, confounder, out) {
            Ok(count) => Ok(count),
            Err(fault) => Err(SaslFailure::from(fault)),
        }
    }

    /// Puts the data of a frame into `out`, and fails with the end's own errors.
    fn unseal_to(&mut self, alloc: Global, frame: &[u8], out: &mut [u8]) -> Result<usize, SaslFault>
        ensures gives { IfOk result (λ count. Delivers (λ plain. Unseals (channel_of self.old) frame.now (Ok plain)) out.old count out.new) }
        ensures after { OnOk result (self.new ≡ with_channel self.old (unsealed_by (channel_of self.old) frame.now)) }
        ensures refused { IfErr result (Faults (Unseals (channel_of self.old) frame.now)
            (λ plain. Unseals (channel_of self.old) frame.now (Ok plain)) (length out.old)) }
        ensures stays { OnErr result (self.new ≡ self.old) }
        ensures room { OnErr result (out.new ≡ out.old) }
    {
        match self {
            SaslEnd::Server(server) => server.unseal_to(alloc, frame, out),
            SaslEnd::Client(client) => client.unseal_to(alloc, frame, out),
        }
    }

    /// Puts the data of a frame into `out`.
    pub(crate) fn unseal(
        &mut self,
        alloc: Global,
        frame: &[u8],
        out: &mut [u8],
    ) -> Result<usize, SaslFailure>
        ensures gives { IfOk result (λ count. Delivers (λ plain. GivesData frame.now self.old plain self.new) out.old count out.new) }
        ensures fails { IfErr result (EndHandsNot ⊥ (RefusesFrame frame.now) (GivesData frame.now) self.old (length out.old)) }
        ensures stays { OnErr result (self.new ≡ self.old) }
        ensures room { OnErr result (out.new ≡ out.old) }
    {
        match self.unseal_to(alloc, frame, out) {
            Ok(count) => Ok(count),
            Err(fault) => Err(SaslFailure::from(fault)),
        }
    }
}
