//! The names and keys of services, by which tokens are judged.

ghost use Rattle.std.specs.Prelude.{◌≡◌, ◌++◌, ◌∷◌, [], map, None, Some, IfOk, IfErr, OnOk, OnErr};
ghost use Rattle.sspi_core.specs.declared.error.Place.TheVariants as places;
ghost use Rattle.krb_context.specs.Refusals.{Refuses};
ghost use Rattle.krb_context.specs.ServiceKeys.{new_properties, service_named, IsNotAscii};
ghost use Rattle.krb_entrance.specs.Candidates.{Passes, Stops, client_told};
ghost use Rattle.krb_entrance.specs.Services.{components, token_limit};

use crate::candidate::{self, Candidate};
use krb_context::KeptKey;
use krb_server::{Draw, Error, Octets, OutOfMemory, Secret, ServerProperties, TryCopy};
use std::alloc::{AllocError, Global};

/// The number of bytes that a token may have, unless the caller sets another bound.
const TOKEN_LIMIT: usize = 65_536;

/// The names and keys of services. It judges tokens, and has no book: it admits nobody. Threads may share one, or have a copy each.
#[derive(Drop)]
pub struct Keys {
    pub properties: ServerProperties,
    /// The number of bytes that a token may have: a longer one is not read.
    pub token_limit: usize,
}

/// Returns the components of a service's name, which `/` separates.
fn components(alloc: Global, name: &str) -> Result<Vec<&str>, AllocError>
    ensures { IfOk result (λ parts. map (λ part. part.now) parts.items ≡ components name.now) }
{
    name.split('/').collect(alloc)
}

impl Keys {
    /// Returns the key of a service with this name, as `host/server.example.com`. A token may have 65,536 bytes. Fails with
    /// `NotAscii` if the name is not ASCII. The skew, in seconds, is kept for the callers of `ServerProperties`, and not read here.
    pub fn new(alloc: Global, name: &str, key: Octets, skew: u32) -> Result<Keys, Error>
        ensures properties { IfOk result (λ keys. keys.properties ≡ new_properties (components name.now) None skew (Some key)) }
        ensures limit { IfOk result (λ keys. keys.token_limit ≡ token_limit) }
        ensures refused { IfErr result (IsNotAscii (components name.now)) }
    {
        let parts = components(alloc, name)?;
        let key = Some(Secret::new(key));
        let properties = ServerProperties::new(alloc, &parts, None, skew, key)?;
        Ok(Keys::from_properties(properties))
    }

    /// Returns the names and keys in these properties. A token may have 65,536 bytes.
    pub fn from_properties(properties: ServerProperties) -> Keys
        ensures properties { result.properties ≡ properties }
        ensures limit { result.token_limit ≡ token_limit }
    {
        Keys {
            properties,
            token_limit: TOKEN_LIMIT,
        }
    }

    /// Adds a further name with its key, after the existing ones. Fails with `NotAscii` if the name is not ASCII.
    pub fn add_key(&mut self, alloc: Global, name: &str, key: Octets) -> Result<(), Error>
        ensures added { OnOk result (self.new ≡ record self.old {
          properties = record self.old.properties {
            additional_service_keys = self.old.properties.additional_service_keys ++ (service_named (components name.now), key) ∷ [];
          };
        }) }
        ensures refused { IfErr result (IsNotAscii (components name.now)) }
        ensures stays { OnErr result (self.new ≡ self.old) }
    {
        let parts = components(alloc, name)?;
        self.properties
            .add_service_key(alloc, &parts, Secret::new(key))
    }

    /// Judges a token without a book: the first half of an admission, with every cipher in it. The keys are only read, and none is
    /// copied. If `channel` is given, the client is bound to it: `channel_hash` makes it of the bindings of the caller's channel.
    ///
    /// Fails by the first check before the book that fails: with `Shape` for a token past `token_limit`, and then as RFC 4120,
    /// section 3.2.3, has it. A TGT-REQ is no AP-REQ: `Shape`. For a client that is bound to a channel, fails with `Checksum` if its
    /// checksum has no room for bindings, and with `Bindings` if they are others, or it sent none.
    pub fn judge(
        &self,
        alloc: Global,
        channel: Option<[u8; 16]>,
        token: &[u8],
        draw: &Draw,
    ) -> Result<Candidate, Error>
        ensures passes { IfOk result (λ candidate. Passes self.now channel token.now draw.now candidate.judged candidate.connection) }
        ensures client { IfOk result (λ candidate. candidate.client.value ≡ client_told candidate.judged.request) }
        ensures refused { IfErr result (Refuses places.Elsewhere (Stops self.now channel token.now draw.now)) }
    {
        let mut kept = KeptKey::new();
        candidate::judge(alloc, self, &mut kept, channel, token, draw)
    }
}

impl TryCopy for Keys {
    fn copy(&self, alloc: Global) -> Result<Keys, OutOfMemory> {
        Ok(Keys {
            properties: self.properties.copy(alloc)?,
            token_limit: self.token_limit,
        })
    }
}
