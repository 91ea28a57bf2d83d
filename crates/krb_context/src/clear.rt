//! Messages in the clear with a checksum (RFC 4121, section 4.2.4).

ghost use Rattle.std.specs.Prelude.{◌≡◌, ◌+◌, ◌++◌, length, IfOk, IfErr, OnErr, Ok};
ghost use Rattle.std.specs.Result.{result_map_both};
ghost use Rattle.krb_crypto.specs.Hmac.{hmac12};
ghost use Rattle.krb_crypto.specs.Suite.{key_size};
ghost use Rattle.sspi_core.specs.Checks.{Answers};
ghost use Rattle.sspi_core.specs.declared.error.Place.TheVariants as places;
ghost use Rattle.krb_context.specs.ClearWraps.{clear_key, clear_token, ReadiesClear, WrapsClear};
ghost use Rattle.krb_context.specs.Contexts.{next_number};
ghost use Rattle.krb_context.specs.Header.{without_counts};
ghost use Rattle.krb_context.specs.Params.{suite_of};
ghost use Rattle.krb_context.specs.Refusals.{Refuses};

use crate::context::Kerberos;
use crate::header::{without_counts, wrap_header};
use crate::params::EncryptionParams;
use crate::parties::{check_key_size, ready_key, seal_usage};
use crate::state::KerberosState;
use krb_crypto::start_checksum;
use krb_der::Octets;
use sspi_core::{Cause, Error};
use std::alloc::{AllocError, Global};

/// The key of a message that is to go in the clear, once all is checked.
#[tactic(auto, using(sspi_core::proofs::Chain::plain_chain), unfolding(crate::specs::ClearWraps::ReadiesClear))]
fn ready_to_clear(state: KerberosState, params: &EncryptionParams) -> Result<&Octets, Cause>
    ensures { ReadiesClear state params.now (result_map_both (λ key. key.now) (λ e. e) result) }
{
    let key = ready_key(state, params)?;
    check_key_size(params, key)?;
    Ok(key)
}

/// A header, a text and a checksum.
fn joined(
    alloc: Global,
    header: &[u8; 16],
    plain: &[u8],
    code: &[u8; 12],
) -> Result<Octets, AllocError>
    ensures { IfOk result (λ token. token ≡ header.now ++ (plain.now ++ code.now)) }
{
    let mut token = Vec::with_capacity(alloc, 28)?;
    token.extend_from_slice(header)?;
    token.extend_from_slice(plain)?;
    token.extend_from_slice(code)?;
    Ok(Octets::new(token))
}

impl EncryptionParams {
    /// The checksum of a text and a header.
    fn clear_code(&self, key: &Octets, acceptor: bool, plain: &[u8], header: &[u8; 16]) -> [u8; 12]
        requires { length key.now ≡ key_size (suite_of self.now) }
        ensures { result ≡ hmac12 (clear_key self.now key.now acceptor) (plain.now ++ without_counts header.now) }
    {
        let mut state = start_checksum(self.suite(), key.as_slice(), seal_usage(acceptor));
        state.update(plain);
        state.update(&without_counts(header));
        state.finalize_short()
    }

    /// The token that a side makes.
    #[tactic(auto, unfolding(crate::specs::ClearWraps::clear_token, crate::specs::ClearWraps::checked_text))]
    fn clear_token(
        &self,
        alloc: Global,
        key: &Octets,
        acceptor: bool,
        flags: u8,
        number: u32,
        plain: &[u8],
    ) -> Result<Octets, AllocError>
        requires { length key.now ≡ key_size (suite_of self.now) }
        ensures { IfOk result (λ token. token ≡ clear_token self.now key.now acceptor flags number plain.now) }
    {
        let header = wrap_header(flags, 12, 0, number);
        let code = self.clear_code(key, acceptor, plain, &header);
        joined(alloc, &header, plain, &code)
    }
}

impl Kerberos {
    /// Makes a wrap token whose text is in the clear: a header of 16 octets, the plain octets, and a checksum of 12 octets over
    /// the plain octets and the header. Increments the context's sequence number modulo 2^32; the new number is in the header.
    ///
    /// Fails, in this order, with `Sequence` before the exchange is over or if there is no key; `KeyLength`. After an error the
    /// context is unchanged.
    pub fn wrap_in_clear(&mut self, alloc: Global, plain: &[u8]) -> Result<Octets, Error>
        ensures wrapped { IfOk result (λ token. WrapsClear self.old plain.now (Ok token)
            × (self.new ≡ record self.old { seq_number = next_number self.old.seq_number })) }
        ensures size { IfOk result (λ token. length token ≡ 28 + length plain.now) }
        ensures refused { IfErr result (λ error. Refuses places.Elsewhere (WrapsClear self.old plain.now) error) }
        ensures stays { OnErr result (self.new ≡ self.old) }
    {
        let token = self.next_clear_token(alloc, plain)?;
        self.seq_number = self.seq_number.wrapping_add(1);
        Ok(token)
    }

    /// The token of the context's next message.
    fn next_clear_token(&self, alloc: Global, plain: &[u8]) -> Result<Octets, Cause>
        ensures { Answers (WrapsClear self.now plain.now) result }
    {
        let params = &self.encryption_params;
        let key = ready_to_clear(self.state, params)?;
        let number = self.seq_number.wrapping_add(1);
        let flags = self.own_sign_flags();
        let acceptor = self.server.is_some();
        Ok(params.clear_token(alloc, key, acceptor, flags, number, plain)?)
    }
}
