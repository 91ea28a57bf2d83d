//! Sealing a message.

ghost use Rattle.std.specs.Prelude.{◌≡◌, ◌+◌, ◌≤◌, ◌<◌, ◌^◌, List, ℕ, length, IfOk, IfErr, OnOk, OnErr, Ok};
ghost use Rattle.std.specs.Result.{result_map_both};
ghost use Rattle.krb_aes.specs.Octets.{IsOctets};
ghost use Rattle.sspi_core.specs.Checks.{Holds};
ghost use Rattle.sspi_core.specs.Messages.{find_part};
ghost use Rattle.sspi_core.specs.declared.cause.Cause.TheVariants as causes;
ghost use Rattle.sspi_core.specs.declared.buffer.Part.TheVariants as parts;
ghost use Rattle.sspi_core.specs.declared.error.Place.TheVariants as places;
ghost use Rattle.krb_context.specs.Contexts.{next_number};
ghost use Rattle.krb_context.specs.Refusals.{Refuses};
ghost use Rattle.krb_context.specs.Wrapped.{limit_of};
ghost use Rattle.krb_context.specs.Whole.{text_message};
ghost use Rattle.krb_context.specs.Wraps.{has_parts, has_token_room, Readies, Wraps};
ghost use Rattle.krb_context.specs.WrapsInto.{WrapsInto, Writes, IsWrappedIn};

use crate::context::Kerberos;
use crate::in_place::write_token;
use crate::kept::keep_codes;
use crate::params::EncryptionParams;
use crate::parties::{check_key_size, ready_key, seal_usage};
use crate::seal::seal_message;
use crate::state::KerberosState;
use crate::text::has_part;
use krb_der::Octets;
use sspi_core::{Cause, Error, Message, Part, SecurityStatus, hold};
use std::alloc::Global;

fn limit_of(message: &Message, part: Part) -> usize
    ensures { result ≡ limit_of (find_part part message.now) }
{
    match message.find(part) {
        Some(buffer) => buffer.limit(),
        None => 0,
    }
}

fn check_parts(message: &Message) -> Result<(), Cause>
    ensures { Holds causes.Buffers (has_parts message.now) result }
{
    hold(
        has_part(message, Part::Token)
            && has_part(message, Part::Plain)
            && !has_part(message, Part::Stream),
        Cause::Buffers,
    )
}

fn check_token_room(ec: u16, message: &Message) -> Result<(), Cause>
    ensures { Holds causes.TooSmall (has_token_room ec message.now) result }
{
    hold(
        60 + ec as usize <= limit_of(message, Part::Token),
        Cause::TooSmall,
    )
}

/// The key of a message that is to be wrapped, once all is checked.
fn ready_to_wrap<'a>(
    state: KerberosState,
    params: &'a EncryptionParams,
    message: &Message,
) -> Result<&'a Octets, Cause>
    ensures { Readies state params.now message.now (result_map_both (λ key. key.now) (λ e. e) result) }
{
    let key = ready_key(state, params)?;
    check_parts(message)?;
    check_key_size(params, key)?;
    check_token_room(params.ec, message)?;
    Ok(key)
}

/// The key of a text that is to be wrapped, once all is checked.
fn ready_for_text(state: KerberosState, params: &EncryptionParams) -> Result<&Octets, Cause>
    ensures { (text : List ℕ) → Readies state params.now (text_message params.now.ec text) (result_map_both (λ key. key.now) (λ e. e) result) }
{
    let key = ready_key(state, params)?;
    check_key_size(params, key)?;
    Ok(key)
}

impl Kerberos {
    /// Encrypts the plain data of a message: the token gets a header and 44 + EC octets of the sealed body, the data get the rest,
    /// as many octets as before. The confounder is 16 random octets. Increments the context's sequence number modulo 2^32; the new
    /// number is in the header.
    ///
    /// Fails, in this order, with `Sequence` before the exchange is over or if there is no key; `Buffers` without a token or plain
    /// data, or with a stream; `KeyLength`; `TooSmall` if the token cannot hold 60 + EC octets. After an error the message and the
    /// context are unchanged.
    pub fn encrypt_message(
        &mut self,
        alloc: Global,
        message: &mut Message,
        confounder: [u8; 16],
    ) -> Result<SecurityStatus, Error>
        ensures wrapped { IfOk result (λ status. (status ≡ SecurityStatus.Ok) × Wraps self.old confounder message.old (Ok message.new)
            × (self.new ≡ record self.old { seq_number = next_number self.old.seq_number })) }
        ensures refused { IfErr result (λ error. Refuses places.Elsewhere (Wraps self.old confounder message.old) error) }
        ensures stays { OnErr result ((message.new ≡ message.old) × (self.new ≡ self.old)) }
    {
        let flags = self.own_seal_flags();
        let params = &self.encryption_params;
        let key = ready_to_wrap(self.state, params, message)?;
        let number = self.seq_number.wrapping_add(1);
        let acceptor = self.server.is_some();
        let kept = self.kept_to_seal.take(
            alloc,
            params.suite(),
            key.as_slice(),
            seal_usage(acceptor),
        )?;
        let sealed = seal_message(
            alloc,
            &kept.sealing,
            flags,
            params.ec,
            number,
            &confounder,
            message,
        );
        self.kept_to_seal.put(kept);
        sealed?;
        keep_codes(
            alloc,
            &self.encryption_params,
            acceptor,
            &mut self.kept_to_seal,
            &mut self.kept_to_open,
        );
        self.seq_number = number;
        Ok(SecurityStatus::Ok)
    }
}

/// The length of the token of a text.
fn token_len(ec: u16, text: &[u8]) -> usize
    ensures len { result ≡ 60 + ec + length text.now }
    ensures small { ec < 2 ^ 16 }
{
    60 + ec as usize + text.len()
}

impl Kerberos {
    /// Returns the length of the token of a text.
    ///
    /// Fails, in this order, with `Sequence` before the exchange is over or if there is no key; `KeyLength`.
    pub fn wrapped_len(&self, text: &[u8]) -> Result<usize, Error>
        ensures len { IfOk result (λ count. (confounder : List ℕ) → length confounder ≡ 16 → IsOctets confounder
            → IsWrappedIn self.now confounder text.now count) }
        ensures size { IfOk result (λ count. count ≡ 60 + self.now.encryption_params.ec + length text.now) }
        ensures refused { IfErr result (λ error. (confounder : List ℕ)
            → Refuses places.Elsewhere (Wraps self.now confounder (text_message self.now.encryption_params.ec text.now)) error) }
    {
        let params = &self.encryption_params;
        let _key = ready_for_text(self.state, params)?;
        Ok(token_len(params.ec, text))
    }

    /// Encrypts a text into `out`, and returns the length of its token: the header, the confounder, the text, EC octets, a copy of
    /// the header and the checksum. The confounder is 16 random octets. Increments the context's sequence number modulo 2^32; the new
    /// number is in the header. The octets of `out` after the token stay.
    ///
    /// Fails, in this order, with `Sequence` before the exchange is over or if there is no key; `KeyLength`; `TooSmall` if `out` is
    /// shorter than the token. After an error `out` and the context are unchanged.
    pub fn wrap_into(
        &mut self,
        alloc: Global,
        text: &[u8],
        confounder: &[u8; 16],
        out: &mut [u8],
    ) -> Result<usize, Error>
        ensures wrapped { IfOk result (λ count. Writes (WrapsInto self.old confounder.now text.now (length out.old)) out.old count out.new) }
        ensures after { OnOk result (self.new ≡ record self.old { seq_number = next_number self.old.seq_number }) }
        ensures refused { IfErr result (λ error. Refuses places.Elsewhere (WrapsInto self.old confounder.now text.now (length out.old)) error) }
        ensures stays { OnErr result ((out.new ≡ out.old) × (self.new ≡ self.old)) }
    {
        let flags = self.own_seal_flags();
        let params = &self.encryption_params;
        let key = ready_for_text(self.state, params)?;
        let count = token_len(params.ec, text);
        if out.len() < count {
            return Err(Error::from(Cause::TooSmall));
        }
        let number = self.seq_number.wrapping_add(1);
        let acceptor = self.server.is_some();
        let usage = seal_usage(acceptor);
        let kept = self
            .kept_to_seal
            .take(alloc, params.suite(), key.as_slice(), usage)?;
        write_token(
            &kept.sealing,
            flags,
            params.ec,
            number,
            confounder,
            text,
            &mut out[..count],
        );
        self.kept_to_seal.put(kept);
        keep_codes(
            alloc,
            &self.encryption_params,
            acceptor,
            &mut self.kept_to_seal,
            &mut self.kept_to_open,
        );
        self.seq_number = number;
        Ok(count)
    }
}
