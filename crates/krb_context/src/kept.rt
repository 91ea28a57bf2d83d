//! The derived keys that a context keeps, so that it does not derive them again for each message. Contracts do not see them.

ghost use Rattle.std.specs.Prelude.{◌≡◌, ◌≤◌, IfOk, IsTrue, length, []};
ghost use Rattle.krb_context.specs.Origins.{origin, checksum_key_of};
ghost use Rattle.krb_crypto.specs.Keyed.{IsHmacOf};
ghost use Rattle.krb_crypto.specs.Suite.{key_size, key_octets, kc};
ghost use Rattle.krb_crypto.specs.SealingPair.{sealing_pair};
ghost use Rattle.krb_crypto.specs.Sealed.{IsSealed, IsSealedUnder};
ghost use Rattle.sspi_core.specs.Checks.{Answers, Finds};
ghost use Rattle.sspi_core.specs.declared.cause.Cause.TheVariants as causes;

use crate::params::EncryptionParams;
use crate::parties::sign_usage;
use krb_crypto::{
    CipherSuite, CryptoError, DerivedKey, HmacKey, HmacState, SealingKey, checksum_key, is_equal,
    key_of, start_checksum,
};
use krb_der::{Octets, OutOfMemory};
use sspi_core::Cause;
use std::alloc::Global;
use std::marker::Model;

/// The keys of sealed texts, and what they were made from.
#[derive(Drop)]
pub(crate) struct Kept {
    suite: CipherSuite,
    usage: u32,
    key: DerivedKey,
    pub(crate) sealing: SealingKey,
    ghost is: { sealing ≡ sealing_pair suite (key_octets key) usage },
}

impl Kept {
    fn new(suite: CipherSuite, key: &[u8], usage: u32) -> Kept
        requires { length key.now ≡ key_size suite }
        ensures { result.sealing ≡ sealing_pair suite key.now usage }
    {
        let sealing = SealingKey::new(suite, key, usage);
        Kept {
            suite,
            usage,
            key: key_of(suite, key),
            sealing,
        }
    }

    fn boxed(
        alloc: Global,
        suite: CipherSuite,
        key: &[u8],
        usage: u32,
    ) -> Result<Box<Kept>, OutOfMemory>
        requires { length key.now ≡ key_size suite }
        ensures { IfOk result (λ kept. kept.value.sealing ≡ sealing_pair suite key.now usage) }
    {
        Ok(Box::new(alloc, Kept::new(suite, key, usage))?)
    }

    fn is_of(&self, suite: CipherSuite, key: &[u8], usage: u32) -> bool
        ensures { IsTrue result → self.now.sealing ≡ sealing_pair suite key.now usage }
    {
        self.suite == suite && self.usage == usage && is_equal(self.key.as_slice(), key)
    }

    /// The plain text that is sealed to a text of at least 28 octets.
    fn unseal(&self, alloc: Global, text: &[u8]) -> Result<Octets, Cause>
        requires { 28 ≤ length text.now }
        ensures { Answers (Finds causes.Altered (IsSealedUnder self.now.sealing text.now)) result }
    {
        match self.sealing.open(alloc, text) {
            Ok(plain) => Ok(plain),
            Err(CryptoError::Altered) => Err(Cause::Altered),
            Err(_) => Err(Cause::Memory),
        }
    }
}

/// The key of the checksums of MIC tokens, and what it was made from. Contracts see the latter.
#[derive(Drop)]
pub(crate) struct KeptCode {
    suite: CipherSuite,
    usage: u32,
    key: DerivedKey,
    code: HmacKey,
}

impl Model for KeptCode {
    ghost use Rattle.krb_context.specs.Origins.{Origin};

    ghost Value = { Origin };

    ghost use Rattle.krb_context.specs.KeptCodes.{origin_of, IsKeptCode};

    ghost view = { origin_of };

    ghost invariant = { IsKeptCode };
}

impl KeptCode {
    fn new(suite: CipherSuite, key: &[u8], usage: u32) -> KeptCode
        requires { length key.now ≡ key_size suite }
    {
        let code = checksum_key(suite, key, usage);
        KeptCode {
            suite,
            usage,
            key: key_of(suite, key),
            code,
        }
    }

    fn is_of(&self, suite: CipherSuite, key: &[u8], usage: u32) -> bool
        ensures { IsTrue result → self.now ≡ origin suite key.now usage }
    {
        self.suite == suite && self.usage == usage && is_equal(self.key.as_slice(), key)
    }

    /// The code of nothing yet.
    fn start(&self) -> HmacState
        ensures { IsHmacOf (checksum_key_of self.now) [] result }
    {
        self.code.start()
    }
}

/// The keys of one side's sealed texts and MIC tokens, as far as they are kept. Contracts see one value. Key schedules are long:
/// they are on the heap, so a context that has sealed and opened nothing is small.
#[derive(Drop)]
pub struct KeptKey {
    kept: Option<Box<Kept>>,
    signing: Option<Box<KeptCode>>,
}

impl Model for KeptKey {
    ghost use Rattle.std.specs.Prelude.{ℕ};

    ghost Value = { Unit {0} };

    ghost view = { λ _. tt };
}

impl KeptKey {
    /// Nothing is kept.
    pub fn new() -> KeptKey {
        KeptKey {
            kept: None,
            signing: None,
        }
    }

    /// The keys of this suite, key and usage, from what was kept where it is of these.
    pub(crate) fn take(
        &mut self,
        alloc: Global,
        suite: CipherSuite,
        key: &[u8],
        usage: u32,
    ) -> Result<Box<Kept>, OutOfMemory>
        requires { length key.now ≡ key_size suite }
        ensures { IfOk result (λ kept. kept.value.sealing ≡ sealing_pair suite key.now usage) }
    {
        match self.kept.take() {
            Some(kept) => {
                if kept.is_of(suite, key, usage) {
                    Ok(kept)
                } else {
                    Kept::boxed(alloc, suite, key, usage)
                }
            }
            None => Kept::boxed(alloc, suite, key, usage),
        }
    }

    pub(crate) fn put(&mut self, kept: Box<Kept>) {
        self.kept = Some(kept);
    }

    /// The plain text that is sealed to this text, of at least 28 octets, under this suite, key and usage. What was kept is
    /// used where it is of these, and what was used is kept for the next text.
    pub fn unseal(
        &mut self,
        alloc: Global,
        suite: CipherSuite,
        key: &[u8],
        usage: u32,
        text: &[u8],
    ) -> Result<Octets, Cause>
        requires key { length key.now ≡ key_size suite }
        requires long { 28 ≤ length text.now }
        ensures { Answers (Finds causes.Altered (IsSealed suite key.now usage text.now)) result }
    {
        let kept = self.take(alloc, suite, key, usage)?;
        let unsealed = kept.unseal(alloc, text);
        self.put(kept);
        unsealed
    }

    /// Keeps the key of the checksums of this suite, key and usage, where there is memory for it.
    fn keep_code(&mut self, alloc: Global, suite: CipherSuite, key: &[u8], usage: u32)
        requires { length key.now ≡ key_size suite }
    {
        let known = match &self.signing {
            Some(kept) => kept.is_of(suite, key, usage),
            None => false,
        };
        if known {
            return;
        }
        if let Ok(code) = Box::new(alloc, KeptCode::new(suite, key, usage)) {
            self.signing = Some(code);
        }
    }

    /// The code of nothing yet, from the key that was kept where it is of this suite, key and usage.
    pub(crate) fn start_code(&self, suite: CipherSuite, key: &[u8], usage: u32) -> HmacState
        requires { length key.now ≡ key_size suite }
        ensures { IsHmacOf (kc suite key.now usage) [] result }
    {
        match &self.signing {
            Some(kept) => {
                if kept.is_of(suite, key, usage) {
                    kept.start()
                } else {
                    start_checksum(suite, key, usage)
                }
            }
            None => start_checksum(suite, key, usage),
        }
    }
}

/// Keeps the keys of both sides' MIC tokens, where there is a key of the suite's size.
pub(crate) fn keep_codes(
    alloc: Global,
    params: &EncryptionParams,
    acceptor: bool,
    own: &mut KeptKey,
    others: &mut KeptKey,
) {
    if let Some(key) = params.key() {
        let suite = params.suite();
        let key = key.as_slice();
        if key.len() == suite.key_size() {
            own.keep_code(alloc, suite, key, sign_usage(acceptor));
            others.keep_code(alloc, suite, key, sign_usage(!acceptor));
        }
    }
}
