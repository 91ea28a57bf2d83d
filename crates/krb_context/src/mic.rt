//! MIC tokens (RFC 4121, section 4.2.4): checksums of payloads that go their own way.

ghost use Rattle.std.specs.Prelude.{◌≡◌, ◌≤◌, ◌++◌, length, take, drop, IfOk, IfErr, OnErr, OnOk, Ok, Err, not};
ghost use Rattle.std.specs.Result.{result_map_both};
ghost use Rattle.krb_crypto.specs.Hmac.{hmac12};
ghost use Rattle.krb_crypto.specs.Suite.{key_size};
ghost use Rattle.sspi_core.specs.Checks.{Answers, Finds, Holds, Takes};
ghost use Rattle.sspi_core.specs.Kinds.{error_of};
ghost use Rattle.sspi_core.specs.declared.cause.Cause.{Cause};
ghost use Rattle.sspi_core.specs.declared.cause.Cause.TheVariants as causes;
ghost use Rattle.sspi_core.specs.declared.error.Place.TheVariants as places;
ghost use Rattle.krb_context.specs.Contexts.{next_number};
ghost use Rattle.krb_context.specs.Header.{is_sealed};
ghost use Rattle.krb_context.specs.Mics.{mic_header, is_mic_header, sign_key, signed, mic_token, MakesMic, mic_header_of, MicHeads, MicKeys, IsSigned, ReadsMic, ChecksMic};
ghost use Rattle.krb_context.specs.Params.{suite_of, key_of};
ghost use Rattle.krb_context.specs.Refusals.{Refuses};

use crate::context::Kerberos;
use crate::header::{check_direction, is_sealed};
use crate::kept::{KeptKey, keep_codes};
use crate::params::EncryptionParams;
use crate::parties::{check_key_size, sign_usage};
use krb_crypto::is_equal;
use krb_der::Octets;
use sspi_core::{Cause, Error, Place, hold};
use std::alloc::Global;

/// The length of a MIC token in octets.
pub const MIC_LEN: usize = 28;

#[tactic(auto, unfolding(crate::specs::Mics::mic_header))]
fn mic_header(flags: u8, number: u32) -> [u8; 16]
    ensures { result ≡ mic_header flags number }
{
    let [n0, n1, n2, n3, n4, n5, n6, n7] = (number as u64).to_be_bytes();
    [
        0x04, 0x04, flags, 0xff, 0xff, 0xff, 0xff, 0xff, n0, n1, n2, n3, n4, n5, n6, n7,
    ]
}

fn is_mic_header(header: &[u8; 16]) -> bool
    ensures { result ≡ is_mic_header header.now }
{
    header[0] == 0x04
        && header[1] == 0x04
        && header[3] == 0xff
        && header[4] == 0xff
        && header[5] == 0xff
        && header[6] == 0xff
        && header[7] == 0xff
}

/// The first 16 octets.
fn front_of(token: &[u8]) -> [u8; 16]
    requires { 16 ≤ length token.now }
    ensures { result ≡ take 16 token.now }
{
    let mut header = [0; 16];
    header.copy_from_slice(&token[..16]);
    header
}

/// The header of a MIC token.
fn mic_header_of(token: &[u8]) -> Result<[u8; 16], Cause>
    ensures { Takes causes.Header (mic_header_of token.now) result }
{
    if token.len() < 16 {
        return Err(Cause::Header);
    }
    let header = front_of(token);
    if is_mic_header(&header) {
        Ok(header)
    } else {
        Err(Cause::Header)
    }
}

fn check_unsealed(header: &[u8; 16]) -> Result<(), Cause>
    ensures { Holds causes.Sealed (not (is_sealed header.now)) result }
{
    hold(!is_sealed(header), Cause::Sealed)
}

/// The header of a MIC token, once it is checked.
fn mic_head(peer: bool, token: &[u8]) -> Result<[u8; 16], Cause>
    ensures { MicHeads peer token.now result }
{
    let header = mic_header_of(token)?;
    check_direction(peer, &header)?;
    check_unsealed(&header)?;
    Ok(header)
}

impl EncryptionParams {
    fn any_key(&self) -> Result<&Octets, Cause>
        ensures { Takes causes.NoKey (key_of self.now) (result_map_both (λ key. key.now) (λ e. e) result) }
    {
        match self.key() {
            Some(key) => Ok(key),
            None => Err(Cause::NoKey),
        }
    }

    /// The key of messages, once its size is checked.
    fn mic_key(&self) -> Result<&Octets, Cause>
        ensures { MicKeys self.now (result_map_both (λ key. key.now) (λ e. e) result) }
    {
        let key = self.any_key()?;
        check_key_size(self, key)?;
        Ok(key)
    }

    fn sub_key(&self) -> Result<&Octets, Cause>
        ensures { Takes causes.NoSubKey self.now.sub_session_key (result_map_both (λ key. key.now) (λ e. e) result) }
    {
        match &self.sub_session_key {
            Some(key) => Ok(key.as_ref()),
            None => Err(Cause::NoSubKey),
        }
    }

    /// The checksum of a payload and a header.
    fn mic_code(
        &self,
        kept: &KeptKey,
        key: &Octets,
        acceptor: bool,
        payload: &[u8],
        header: &[u8; 16],
    ) -> [u8; 12]
        requires { length key.now ≡ key_size (suite_of self.now) }
        ensures { result ≡ hmac12 (sign_key self.now key.now acceptor) (payload.now ++ header.now) }
    {
        let mut state = kept.start_code(self.suite(), key.as_slice(), sign_usage(acceptor));
        state.update(payload);
        state.update(header);
        state.finalize_short()
    }
}

/// A header and a checksum.
fn joined(header: &[u8; 16], code: &[u8; 12]) -> [u8; MIC_LEN]
    ensures { result ≡ header.now ++ code.now }
{
    let mut token = [0; MIC_LEN];
    token[..16].copy_from_slice(header);
    token[16..].copy_from_slice(code);
    token
}

impl Kerberos {
    /// Makes a MIC token of 28 octets over a payload, under the subkey. Increments the context's sequence number modulo 2^32; the
    /// new number is in the header.
    ///
    /// Fails, in this order, with `NoSubKey`, of the kind InternalError; `KeyLength`. After an error the context is unchanged.
    pub fn generate_mic_token(&mut self, alloc: Global, payload: &[u8]) -> Result<Octets, Error>
        ensures made { IfOk result (λ token. MakesMic self.old payload.now (Ok token)
            × (self.new ≡ record self.old { seq_number = next_number self.old.seq_number })) }
        ensures refused { IfErr result (λ error. Refuses places.MakeMic (MakesMic self.old payload.now) error) }
        ensures stays { OnErr result (self.new ≡ self.old) }
    {
        let number = self.seq_number;
        let token = self.make_mic(alloc, payload)?;
        match Octets::from_slice(alloc, &token) {
            Ok(octets) => Ok(octets),
            Err(error) => {
                self.seq_number = number;
                Err(Error::from(error))
            }
        }
    }

    /// Makes a MIC token as `generate_mic_token` does. It takes no memory once the keys are kept.
    pub fn make_mic(&mut self, alloc: Global, payload: &[u8]) -> Result<[u8; MIC_LEN], Error>
        ensures made { IfOk result (λ token. MakesMic self.old payload.now (Ok token)
            × (self.new ≡ record self.old { seq_number = next_number self.old.seq_number })) }
        ensures refused { IfErr result (λ error. Refuses places.MakeMic (MakesMic self.old payload.now) error) }
        ensures stays { OnErr result (self.new ≡ self.old) }
    {
        keep_codes(
            alloc,
            &self.encryption_params,
            self.server.is_some(),
            &mut self.kept_to_seal,
            &mut self.kept_to_open,
        );
        let token = match self.mic_token(payload) {
            Ok(token) => token,
            Err(cause) => return Err(Error::at(Place::MakeMic, cause)),
        };
        self.seq_number = self.seq_number.wrapping_add(1);
        Ok(token)
    }

    /// The token that the context is to make.
    fn mic_token(&self, payload: &[u8]) -> Result<[u8; MIC_LEN], Cause>
        ensures { Answers (MakesMic self.now payload.now) result }
    {
        let params = &self.encryption_params;
        let key = params.sub_key()?;
        check_key_size(params, key)?;
        let acceptor = self.server.is_some();
        let header = mic_header(self.own_sign_flags(), self.seq_number.wrapping_add(1));
        let code = params.mic_code(&self.kept_to_seal, key, acceptor, payload, &header);
        Ok(joined(&header, &code))
    }

    /// Ok exactly where the token is a MIC token of the peer over this payload. Its number is not looked at.
    ///
    /// The refusals, in their order: `Header`, `Direction`, `Sealed`, `NoKey`, `KeyLength`, `Altered`.
    pub fn verify_mic_token(&self, token: &[u8], payload: &[u8]) -> Result<(), Error>
        ensures verified { OnOk result (ChecksMic self.now token.now payload.now (Ok tt)) }
        ensures refused { IfErr result (λ error. (cause : Cause) × (error ≡ error_of cause) × ChecksMic self.now token.now payload.now (Err cause)) }
    {
        let peer = self.is_client();
        self.encryption_params
            .check_mic(&self.kept_to_open, peer, token, payload)?;
        Ok(())
    }
}

impl EncryptionParams {
    /// The checks of a token over a payload, from a peer of this role.
    fn check_mic(
        &self,
        kept: &KeptKey,
        peer: bool,
        token: &[u8],
        payload: &[u8],
    ) -> Result<(), Cause>
        ensures { ReadsMic self.now peer token.now payload.now result }
    {
        let header = mic_head(peer, token)?;
        let key = self.mic_key()?;
        self.check_code(kept, key, peer, token, payload, &header)
    }

    fn check_code(
        &self,
        kept: &KeptKey,
        key: &Octets,
        peer: bool,
        token: &[u8],
        payload: &[u8],
        header: &[u8; 16],
    ) -> Result<(), Cause>
        requires long { 16 ≤ length token.now }
        requires header { header.now ≡ take 16 token.now }
        requires size { length key.now ≡ key_size (suite_of self.now) }
        ensures { Finds causes.Altered (λ (here : Unit {0}). IsSigned (sign_key self.now key.now peer) payload.now header.now token.now) result }
    {
        let code = self.mic_code(kept, key, peer, payload, header);
        if is_equal(&token[16..], &code) {
            Ok(())
        } else {
            Err(Cause::Altered)
        }
    }
}
