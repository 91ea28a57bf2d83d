//! A client that was admitted, and its messages.

ghost use Rattle.std.specs.Prelude.{◌≡◌, length, Ok, IfOk, IfErr, OnOk, OnErr};
ghost use Rattle.sspi_core.specs.Checks.{Takes};
ghost use Rattle.sspi_core.specs.declared.cause.Cause.TheVariants as causes;
ghost use Rattle.sspi_core.specs.declared.error.Place.TheVariants as places;
ghost use Rattle.krb_crypto.specs.Suite.{suite_number};
ghost use Rattle.krb_context.specs.ClearWraps.{WrapsClear};
ghost use Rattle.krb_context.specs.Mics.{MakesMic};
ghost use Rattle.krb_context.specs.Params.{key_of, suite_of};
ghost use Rattle.krb_context.specs.Queries.{name_of};
ghost use Rattle.krb_context.specs.Whole.{text_message};
ghost use Rattle.krb_context.specs.Wraps.{Wraps};
ghost use Rattle.krb_sessions.specs.Gives.{Delivers, Faults, IsKey, IsNamed, IsWrapped, after_making};
ghost use Rattle.krb_sessions.specs.Orders.{UnwrapsInOrder, VerifiesInOrder, RefusesMic, order_asked, order_from, taken, verified};
ghost use Rattle.krb_sessions.specs.declared.order.Order.TheVariants as orders;

use crate::client::Client;
use crate::fault::Fault;
use crate::message::{check_mic, opened_in_order, wrap_into};
use crate::name::name_text;
use crate::order::{Order, token_number};
use crate::room::put;
use krb_context::{Kerberos, Rules};
use krb_der::Octets;
use sspi_core::{Cause, Error};
use std::alloc::Global;

/// A client's connection, from its first token on.
#[derive(Drop)]
pub struct Session {
    /// The reply to the client; no bytes if it did not ask for mutual authentication.
    pub answer: Octets,
    pub connection: Kerberos,
    /// The client. An acceptor's session has it; an initiator has no client.
    pub client: Option<Box<Client>>,
    /// Which of the peer's messages is accepted next. A new session accepts them in any order.
    pub order: Order,
}

impl Session {
    /// Puts the reply to the client into `out`: an AP-REP if it asked for mutual authentication, otherwise no bytes.
    pub fn answer(&self, out: &mut [u8]) -> Result<usize, Fault>
        ensures gives { IfOk result (λ count. Delivers (λ octets. octets ≡ self.now.answer) out.old count out.new) }
        ensures short { IfErr result (Faults places.Elsewhere (λ answer. answer ≡ Ok self.now.answer) (λ octets. octets ≡ self.now.answer) (length out.old)) }
        ensures stays { OnErr result (out.new ≡ out.old) }
    {
        match put(out, self.answer.as_slice()) {
            Ok(count) => Ok(count),
            Err(fault) => Err(fault),
        }
    }

    /// Puts a short name of the client for a local account, in UTF-8, into `out`, if it has one. **Give rights by the whole name**:
    /// [`Client::principal`](crate::Client::principal). Under the rules of the RFCs there is a short name only for a client whose
    /// name is of type 1 and of one component: `alice@example.com`, the component and the realm in lower case, for
    /// `alice@EXAMPLE.COM`. So `alice/admin`, a host, or an enterprise name has none; the call fails with `NoIdentity`. The realm is
    /// any that the ticket names: compare it with the allowed realms.
    pub fn local_name(&self, alloc: Global, out: &mut [u8]) -> Result<usize, Fault>
        ensures gives { IfOk result (λ count. Delivers (IsNamed self.now.connection) out.old count out.new) }
        ensures refused { IfErr result (Faults places.Query (λ answer. answer ≡ name_of self.now.connection) (IsNamed self.now.connection) (length out.old)) }
        ensures stays { OnErr result (out.new ≡ out.old) }
    {
        let names = self.connection.query_context_names(alloc)?;
        let text = name_text(alloc, &names.username)?;
        match put(out, text.as_slice()) {
            Ok(count) => Ok(count),
            Err(fault) => Err(fault),
        }
    }

    /// Puts the key of the session's messages into `out`: the subkey that an end chose, otherwise the ticket's session key. Fails with
    /// OutOfSequence `Sequence` before there is a key.
    pub fn key(&self, out: &mut [u8]) -> Result<usize, Fault>
        ensures gives { IfOk result (λ count. Delivers (IsKey self.now.connection) out.old count out.new) }
        ensures refused { IfErr result (Faults places.Elsewhere (Takes causes.Sequence (key_of self.now.connection.encryption_params))
            (IsKey self.now.connection) (length out.old)) }
        ensures stays { OnErr result (out.new ≡ out.old) }
    {
        let Some(key) = self.connection.encryption_params.key() else {
            return Err(Fault::Refused(Error::from(Cause::Sequence)));
        };
        match put(out, key.as_slice()) {
            Ok(count) => Ok(count),
            Err(fault) => Err(fault),
        }
    }

    /// Returns the encryption type of that key: 17 or 18 (RFC 3962, section 7).
    pub fn key_type(&self) -> u8
        ensures { result ≡ suite_number (suite_of self.now.connection.encryption_params) }
    {
        self.connection.encryption_params.suite().number()
    }

    /// Sets the rules of the context: these from now on, and no others. They replace those that it began with.
    pub fn set_rules(&mut self, rules: Rules)
        ensures { self.new ≡ record self.old { connection = record self.old.connection { rules = rules } } }
    {
        self.connection.rules = rules;
    }

    /// Encrypts a text into a message for the peer. The confounder is 16 random bytes.
    pub fn wrap(
        &mut self,
        alloc: Global,
        text: &[u8],
        confounder: [u8; 16],
        out: &mut [u8],
    ) -> Result<usize, Fault>
        ensures gives { IfOk result (λ count. Delivers (IsWrapped self.old.connection confounder text.now) out.old count out.new) }
        ensures after { OnOk result (self.new ≡ record self.old { connection = after_making self.old.connection }) }
        ensures refused { IfErr result (Faults places.Elsewhere
            (Wraps self.old.connection confounder (text_message self.old.connection.encryption_params.ec text.now))
            (IsWrapped self.old.connection confounder text.now) (length out.old)) }
        ensures stays { OnErr result (self.new ≡ self.old) }
        ensures room { OnErr result (out.new ≡ out.old) }
    {
        wrap_into(alloc, &mut self.connection, text, &confounder, out)
    }

    /// Puts a message for the peer with a text in the clear and its checksum into `out`.
    pub fn wrap_in_clear(
        &mut self,
        alloc: Global,
        text: &[u8],
        out: &mut [u8],
    ) -> Result<usize, Fault>
        ensures gives { IfOk result (λ count. Delivers (λ token. WrapsClear self.old.connection text.now (Ok token)) out.old count out.new) }
        ensures after { OnOk result (self.new ≡ record self.old { connection = after_making self.old.connection }) }
        ensures refused { IfErr result (Faults places.Elsewhere (WrapsClear self.old.connection text.now)
            (λ token. WrapsClear self.old.connection text.now (Ok token)) (length out.old)) }
        ensures stays { OnErr result (self.new ≡ self.old) }
        ensures room { OnErr result (out.new ≡ out.old) }
    {
        let number = self.connection.seq_number;
        let token = self.connection.wrap_in_clear(alloc, text)?;
        match put(out, token.as_slice()) {
            Ok(count) => Ok(count),
            Err(fault) => {
                self.connection.seq_number = number;
                Err(fault)
            }
        }
    }

    /// Returns the order that `set_in_order` sets: a SASL end that is made of this session's connection has this order.
    pub fn in_order(&self) -> Order
        ensures { result ≡ order_asked self.now }
    {
        match (self.order, &self.client) {
            (Order::Next(next), _) => Order::Next(next),
            (_, Some(client)) => Order::Next(client.first_number),
            (_, None) => Order::FromFirst,
        }
    }

    /// Accepts the peer's messages from now on only in the order in which they were sent (RFC 2743, section 1.2.3): a dropped,
    /// exchanged or repeated message is not passed over. An acceptor's session begins with the first number of the client's
    /// authenticator, so call it before the first message. An initiator's begins with the first message that decrypts. A count that
    /// has begun goes on.
    pub fn set_in_order(&mut self)
        ensures { self.new ≡ record self.old { order = order_asked self.old } }
    {
        self.order = self.in_order();
    }

    /// Accepts the peer's messages in any order from now on, each encrypted or clear one once.
    pub fn set_any_order(&mut self)
        ensures { self.new ≡ record self.old { order = orders.Any } }
    {
        self.order = Order::Any;
    }

    /// Decrypts a message of the peer, if it is the next one. Each message is decrypted once. If messages are accepted in order, fails
    /// with InvalidToken `Number` for any other message, after all other checks.
    pub fn unwrap(&mut self, alloc: Global, sealed: &[u8], out: &mut [u8]) -> Result<usize, Fault>
        ensures gives { IfOk result (λ count. Delivers (λ text. UnwrapsInOrder self.old.order self.old.connection sealed.now (Ok text)) out.old count out.new) }
        ensures after { OnOk result (self.new ≡ taken sealed.now self.old) }
        ensures refused { IfErr result (Faults places.Elsewhere (UnwrapsInOrder self.old.order self.old.connection sealed.now)
            (λ text. UnwrapsInOrder self.old.order self.old.connection sealed.now (Ok text)) (length out.old)) }
        ensures stays { OnErr result (self.new ≡ self.old) }
        ensures room { OnErr result (out.new ≡ out.old) }
    {
        let window = self.connection.window;
        let order = self.order;
        let text = opened_in_order(alloc, &mut self.connection, &mut self.order, sealed)?;
        match put(out, text.as_slice()) {
            Ok(count) => Ok(count),
            Err(fault) => {
                self.connection.window = window;
                self.order = order;
                Err(fault)
            }
        }
    }

    /// Puts a MIC token of 28 bytes over a payload into `out`.
    pub fn mic(&mut self, alloc: Global, payload: &[u8], out: &mut [u8]) -> Result<usize, Fault>
        ensures gives { IfOk result (λ count. Delivers (λ token. MakesMic self.old.connection payload.now (Ok token)) out.old count out.new) }
        ensures after { OnOk result (self.new ≡ record self.old { connection = after_making self.old.connection }) }
        ensures refused { IfErr result (Faults places.MakeMic (MakesMic self.old.connection payload.now)
            (λ token. MakesMic self.old.connection payload.now (Ok token)) (length out.old)) }
        ensures stays { OnErr result (self.new ≡ self.old) }
        ensures room { OnErr result (out.new ≡ out.old) }
    {
        let number = self.connection.seq_number;
        let token = self.connection.make_mic(alloc, payload)?;
        match put(out, &token) {
            Ok(count) => Ok(count),
            Err(fault) => {
                self.connection.seq_number = number;
                Err(fault)
            }
        }
    }

    /// Returns Ok exactly if the token is a MIC token of the peer over this payload and, if messages are accepted in order, the next
    /// token. In any order its number is not checked: the same token verifies again.
    pub fn verify(&mut self, mic: &[u8], payload: &[u8]) -> Result<(), Error>
        ensures verified { OnOk result (VerifiesInOrder self.old.order self.old.connection mic.now payload.now (Ok tt)) }
        ensures after { OnOk result (self.new ≡ verified mic.now self.old) }
        ensures refused { IfErr result (RefusesMic self.old.order self.old.connection mic.now payload.now) }
        ensures stays { OnErr result (self.new ≡ self.old) }
    {
        check_mic(&self.connection, mic, payload)?;
        match self.order.take(token_number(mic)) {
            Ok(()) => Ok(()),
            Err(cause) => Err(Error::from(cause)),
        }
    }
}
