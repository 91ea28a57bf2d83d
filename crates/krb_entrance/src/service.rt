//! A service: its names and keys, and the one replay book of all its clients.

ghost use Rattle.std.specs.Prelude.{◌≡◌, ◌≤◌, ◌++◌, ◌∷◌, [], length, None, Some, IfOk, IfErr, OnOk, OnErr};
ghost use Rattle.sspi_core.specs.Kinds.{error_of};
ghost use Rattle.sspi_core.specs.declared.cause.Cause.TheVariants as causes;
ghost use Rattle.sspi_core.specs.declared.error.Place.TheVariants as places;
ghost use Rattle.krb_replay.specs.Book.{StandsFor, IsUnchanged};
ghost use Rattle.krb_replay.specs.History.{no_history};
ghost use Rattle.krb_context.specs.ServiceKeys.{new_properties, service_named, IsNotAscii};
ghost use Rattle.krb_context.specs.Refusals.{Refuses};
ghost use Rattle.krb_entrance.specs.Admits.{Admits, Rejects};
ghost use Rattle.krb_entrance.specs.Candidates.{Passes, Stops, IsLetIn, TurnsAway, client_told};
ghost use Rattle.krb_entrance.specs.Connections.{IsKeyless};
ghost use Rattle.krb_entrance.specs.Services.{components, token_limit};

use crate::candidate::{self, Candidate};
use crate::keys::Keys;
use crate::one_call::accept;
use krb_context::KeptKey;
use krb_server::{Draw, Error, Octets, OutOfMemory, ReplayBook};
use krb_sessions::Session;
use std::alloc::Global;

/// The services of a process, and the one replay book of all their clients.
#[derive(Drop)]
pub struct Service {
    pub keys: Keys,
    pub book: ReplayBook,
    /// The derived keys that opened the last ticket, for the next one under the same key.
    pub kept: KeptKey,
}

impl Service {
    /// Returns a service with this name, as `host/server.example.com`, and its key. The skew, in seconds, is by how much a client's
    /// clock may be wrong. A token may have 65,536 bytes: `keys.token_limit`. Fails with `NotAscii` if the name is not ASCII.
    pub fn new(alloc: Global, name: &str, key: Octets, skew: u32) -> Result<Service, Error>
        ensures properties { IfOk result (λ service. service.keys.properties ≡ new_properties (components name.now) None skew (Some key)) }
        ensures limit { IfOk result (λ service. service.keys.token_limit ≡ token_limit) }
        ensures skew { IfOk result (λ service. service.book.skew ≡ skew) }
        ensures book { IfOk result (λ service. StandsFor service.book no_history) }
        ensures refused { IfErr result (IsNotAscii (components name.now)) }
    {
        let keys = Keys::new(alloc, name, key, skew)?;
        Ok(Service::from_keys(alloc, keys, skew)?)
    }

    /// Returns a service with these names and keys, and an empty book that has this skew, in seconds.
    pub fn from_keys(alloc: Global, keys: Keys, skew: u32) -> Result<Service, OutOfMemory>
        ensures keys { IfOk result (λ service. service.keys ≡ keys) }
        ensures skew { IfOk result (λ service. service.book.skew ≡ skew) }
        ensures book { IfOk result (λ service. StandsFor service.book no_history) }
    {
        let book = ReplayBook::new(alloc, skew)?;
        Ok(Service {
            keys,
            book,
            kept: KeptKey::new(),
        })
    }

    /// Adds a further name with its key, after the existing ones. Fails with `NotAscii` if the name is not ASCII.
    pub fn add_key(&mut self, alloc: Global, name: &str, key: Octets) -> Result<(), Error>
        ensures added { OnOk result (self.new ≡ record self.old {
          keys = record self.old.keys {
            properties = record self.old.keys.properties {
              additional_service_keys = self.old.keys.properties.additional_service_keys ++ (service_named (components name.now), key) ∷ [];
            };
          };
        }) }
        ensures refused { IfErr result (IsNotAscii (components name.now)) }
        ensures stays { OnErr result (self.new ≡ self.old) }
    {
        self.keys.add_key(alloc, name, key)
    }

    /// Reserves space for this many more records of admitted clients.
    pub fn reserve(&mut self, records: usize) -> Result<(), OutOfMemory>
        ensures room { OnOk result (records ≤ self.new.book.spare) }
        ensures same { IsUnchanged self.old.book self.new.book }
        ensures keys { self.new.keys ≡ self.old.keys }
    {
        self.book.reserve(records)
    }

    /// Returns the number of records of admitted clients that are kept.
    pub fn kept(&self) -> u64
        ensures { result ≡ length self.now.book.kept }
    {
        self.book.kept()
    }

    /// Begins a new, empty book, which has this skew: for a process whose clock was wrong. A book uses the greatest moment that it was
    /// ever asked about, so one token that was judged at a far moment moves it for everybody.
    ///
    /// **All that was admitted can be admitted again.** So set the clock right, admit nobody for twice the skew, and then call this:
    /// the time in a client's token may be ahead by the skew, and the token is valid for that long after its time.
    pub fn begin_book(&mut self, alloc: Global, skew: u32) -> Result<(), OutOfMemory>
        ensures skew { OnOk result (self.new.book.skew ≡ skew) }
        ensures book { OnOk result (StandsFor self.new.book no_history) }
        ensures keys { self.new.keys ≡ self.old.keys }
        ensures stays { OnErr result (self.new ≡ self.old) }
    {
        self.book = ReplayBook::new(alloc, skew)?;
        Ok(())
    }

    /// Admits the client that sent this token, by [`judge`](Service::judge) and then [`admit`](Service::admit), or fails with the
    /// first check that failed, of those of RFC 4120, section 3.2.3. A TGT-REQ is no AP-REQ: the call fails with InvalidToken
    /// `Shape`.
    ///
    /// The session is whole: it has its client and the reply to it. It has the rules of the RFCs, `Rules::rfc()`, and no key of a
    /// service.
    pub fn accept(&mut self, alloc: Global, token: &[u8], draw: &Draw) -> Result<Session, Error>
        ensures admits { IfOk result (λ session. Admits self.old.keys None token.now draw.now self.old.book session self.new.book) }
        ensures keyless { IfOk result (λ session. IsKeyless session.connection) }
        // A refusal is that of the first check that failed, and the book is as that check left it.
        ensures refused { IfErr result (Refuses places.Elsewhere (Rejects self.old.keys None token.now draw.now self.old.book self.new.book)) }
        // If memory runs out the book is unchanged: the same token may be sent again.
        ensures memory { IfErr result (λ error. error ≡ error_of causes.Memory → IsUnchanged self.old.book self.new.book) }
        ensures keys { self.new.keys ≡ self.old.keys }
    {
        accept(
            alloc,
            &self.keys,
            &mut self.kept,
            &mut self.book,
            None,
            token,
            draw,
        )
    }

    /// Admits as [`accept`](Service::accept) does a client that is bound to its channel, as at [`judge_bound`](Service::judge_bound).
    pub fn accept_bound(
        &mut self,
        alloc: Global,
        channel: [u8; 16],
        token: &[u8],
        draw: &Draw,
    ) -> Result<Session, Error>
        ensures admits { IfOk result (λ session. Admits self.old.keys (Some channel) token.now draw.now self.old.book session self.new.book) }
        ensures keyless { IfOk result (λ session. IsKeyless session.connection) }
        ensures refused { IfErr result (Refuses places.Elsewhere (Rejects self.old.keys (Some channel) token.now draw.now self.old.book self.new.book)) }
        ensures memory { IfErr result (λ error. error ≡ error_of causes.Memory → IsUnchanged self.old.book self.new.book) }
        ensures keys { self.new.keys ≡ self.old.keys }
    {
        accept(
            alloc,
            &self.keys,
            &mut self.kept,
            &mut self.book,
            Some(channel),
            token,
            draw,
        )
    }

    /// Judges a token without the book: the first half of an admission, with every cipher in it. The keys are only read, so
    /// threads may share them.
    ///
    /// Fails as [`Keys::judge`](crate::Keys::judge) does: by the first check before the book that fails; with InvalidToken `Shape`
    /// for a TGT-REQ.
    pub fn judge(&self, alloc: Global, token: &[u8], draw: &Draw) -> Result<Candidate, Error>
        ensures passes { IfOk result (λ candidate. Passes self.now.keys None token.now draw.now candidate.judged candidate.connection) }
        ensures client { IfOk result (λ candidate. candidate.client.value ≡ client_told candidate.judged.request) }
        ensures refused { IfErr result (Refuses places.Elsewhere (Stops self.now.keys None token.now draw.now)) }
    {
        self.keys.judge(alloc, None, token, draw)
    }

    /// Judges a token whose client is bound to its channel: `channel` is the hash of the channel's bindings, as
    /// [`channel_hash`](crate::channel_hash) makes it (RFC 4121, section 4.1.1.2). Besides the errors of [`judge`](Service::judge),
    /// fails with `Checksum` if the client's checksum has no room for bindings, and with `Bindings` if they are others, or it sent
    /// none.
    pub fn judge_bound(
        &self,
        alloc: Global,
        channel: [u8; 16],
        token: &[u8],
        draw: &Draw,
    ) -> Result<Candidate, Error>
        ensures passes { IfOk result (λ candidate. Passes self.now.keys (Some channel) token.now draw.now candidate.judged candidate.connection) }
        ensures client { IfOk result (λ candidate. candidate.client.value ≡ client_told candidate.judged.request) }
        ensures refused { IfErr result (Refuses places.Elsewhere (Stops self.now.keys (Some channel) token.now draw.now)) }
    {
        self.keys.judge(alloc, Some(channel), token, draw)
    }

    /// Admits a candidate if the book does: the second half, which is short. So threads may share the book under a lock, and
    /// hold it for this call alone.
    pub fn admit(&mut self, alloc: Global, candidate: Candidate) -> Result<Session, Error>
        ensures admits { IfOk result (λ session. IsLetIn candidate self.old.book session self.new.book) }
        // A refusal is that of the first check that failed, and the book is as that check left it.
        ensures refused { IfErr result (Refuses places.Elsewhere (TurnsAway candidate self.old.book self.new.book)) }
        // If memory runs out the book is unchanged: the same token may be sent again.
        ensures memory { IfErr result (λ error. error ≡ error_of causes.Memory → IsUnchanged self.old.book self.new.book) }
        ensures keys { self.new.keys ≡ self.old.keys }
    {
        candidate::admit(alloc, candidate, &mut self.book)
    }
}
