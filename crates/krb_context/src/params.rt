//! The suite, the keys and the extra count (EC) of a context's messages.

ghost use Rattle.std.specs.Prelude.{◌≡◌, MatchOption, IfOk, None, Some};
ghost use Rattle.krb_context.specs.Params.{default_params, suite_of, size_of, key_of};

use crate::constants::DEFAULT_ENCRYPTION_TYPE;
use krb_crypto::{AesSize, CipherSuite};
use krb_der::{Blank, Copier, Octets, OutOfMemory, TryCopy};
use krb_messages::constants::{ACCEPTOR_SEAL_USAGE, INITIATOR_SEAL_USAGE};
use sspi_core::Secret;
use std::alloc::Global;

/// The suite and the keys of a context, and the extra count (EC) of its sealed messages.
///
/// The context's suite is `encryption_type`, otherwise AES-256. The context's key is the subkey, otherwise the session key.
#[derive(Drop)]
pub struct EncryptionParams {
    pub encryption_type: Option<CipherSuite>,
    /// The key inside the ticket.
    pub session_key: Option<Secret<Octets>>,
    /// The key that an end of the exchange chose.
    pub sub_session_key: Option<Secret<Octets>>,
    /// Kept for who asks. The role of a context alone gives the usages of its messages.
    pub sspi_encrypt_key_usage: u32,
    /// Kept for who asks. The role of a context alone gives the usages of its messages.
    pub sspi_decrypt_key_usage: u32,
    /// The extra count (EC) of a sealed message: its padding, in octets.
    pub ec: u16,
    /// True if the subkey came in an AP-REP, so that the acceptor chose it (RFC 4121, section 4.2.2). Only the option
    /// `SUBKEY_FLAG_BY_ORIGIN` reads it.
    pub acceptor_subkey: bool,
}

impl EncryptionParams {
    fn with_usages(sspi_encrypt_key_usage: u32, sspi_decrypt_key_usage: u32) -> EncryptionParams
        ensures { result ≡ default_params sspi_encrypt_key_usage sspi_decrypt_key_usage }
    {
        EncryptionParams {
            encryption_type: None,
            session_key: None,
            sub_session_key: None,
            sspi_encrypt_key_usage,
            sspi_decrypt_key_usage,
            ec: 0,
            acceptor_subkey: false,
        }
    }

    /// Returns the parameters of an initiator before the exchange: no suite, no keys and an extra count (EC) of 0.
    pub fn default_for_client() -> EncryptionParams
        ensures { result ≡ default_params 24 22 }
    {
        EncryptionParams::with_usages(INITIATOR_SEAL_USAGE, ACCEPTOR_SEAL_USAGE)
    }

    /// Returns the parameters of an initiator whose suite is known: no keys and an extra count (EC) of 0.
    pub fn of_suite(suite: CipherSuite) -> EncryptionParams
        ensures made { result ≡ record (default_params 24 22) { encryption_type = Some suite } }
        ensures suite { suite_of result ≡ suite }
    {
        let mut params = EncryptionParams::default_for_client();
        params.encryption_type = Some(suite);
        params
    }

    /// Returns the parameters of an acceptor before the exchange: no suite, no keys and an extra count (EC) of 0.
    pub fn default_for_server() -> EncryptionParams
        ensures { result ≡ default_params 22 24 }
    {
        EncryptionParams::with_usages(ACCEPTOR_SEAL_USAGE, INITIATOR_SEAL_USAGE)
    }

    /// Returns a copy for this suite, with the same keys and extra count (EC).
    pub fn copy_for(
        &self,
        alloc: Global,
        suite: CipherSuite,
    ) -> Result<EncryptionParams, OutOfMemory>
        ensures { IfOk result (λ made. made ≡ record self.now { encryption_type = Some suite }) }
    {
        let mut params = self.copy(alloc)?;
        params.encryption_type = Some(suite);
        Ok(params)
    }

    /// The size of the suite's keys, None exactly where no suite was chosen.
    pub fn aes_size(&self) -> Option<AesSize>
        ensures { result ≡ size_of self.now.encryption_type }
    {
        match self.encryption_type {
            Some(CipherSuite::Aes128CtsHmacSha196) => Some(AesSize::Aes128),
            Some(CipherSuite::Aes256CtsHmacSha196) => Some(AesSize::Aes256),
            None => None,
        }
    }

    /// Returns the context's suite: the one that was chosen, otherwise AES-256.
    pub fn suite(&self) -> CipherSuite
        ensures { result ≡ suite_of self.now }
    {
        match self.encryption_type {
            Some(suite) => suite,
            None => DEFAULT_ENCRYPTION_TYPE,
        }
    }

    /// Returns the context's key: the subkey, otherwise the session key.
    pub fn key(&self) -> Option<&Octets>
        ensures { MatchOption result (key_of self.now ≡ None) (λ key. key_of self.now ≡ Some key.now) }
    {
        match &self.sub_session_key {
            Some(key) => Some(key.as_ref()),
            None => match &self.session_key {
                Some(key) => Some(key.as_ref()),
                None => None,
            },
        }
    }
}

impl TryCopy for EncryptionParams {
    fn copy(&self, alloc: Global) -> Result<EncryptionParams, OutOfMemory> {
        let mut copier = Copier::new(alloc);
        let copy = EncryptionParams {
            encryption_type: self.encryption_type,
            session_key: copier.copy(&self.session_key),
            sub_session_key: copier.copy(&self.sub_session_key),
            sspi_encrypt_key_usage: self.sspi_encrypt_key_usage,
            sspi_decrypt_key_usage: self.sspi_decrypt_key_usage,
            ec: self.ec,
            acceptor_subkey: self.acceptor_subkey,
        };
        copier.finish(copy)
    }
}

impl Blank for EncryptionParams {
    fn blank(_alloc: Global) -> EncryptionParams {
        EncryptionParams::default_for_client()
    }
}
