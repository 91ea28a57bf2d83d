//! A keyring.

ghost use Rattle.std.specs.Prelude.{◌≡◌, ℕ, ◌+◌, ◌++◌, ◌^◌, ◌-◌, [], List, length, map, min, IfOk, IfErr, OnOk, OnErr};
ghost use Rattle.sspi_core.specs.Checks.{Answers};
ghost use Rattle.krb_entrance.specs.Candidates.{client_told};
ghost use Rattle.krb_entrance.specs.Services.{token_limit};
ghost use Rattle.krb_entrance.specs.Turns.{Opens};
ghost use Rattle.krb_keyring.specs.Choice.{chosen};
ghost use Rattle.krb_keyring.specs.Held.{held, named};
ghost use Rattle.krb_keyring.specs.Judging.{single, Reads, EndsBy, OpensByRing, RefusesByRing};

use crate::choice::chosen_of;
use crate::judging::judge_by;
use crate::services::{ByName, add_all};
use indexmap::IndexMap;
use krb_admission::read_token;
use krb_der::{Items, Name, OutOfMemory};
use krb_entrance::{Candidate, Cause, Draw, Error};
use krb_keytab::{Keytab, KeytabEntry};
use krb_messages::{ApReq, Ticket};
use sspi_core::hold;
use std::alloc::Global;

/// The number of bytes that a token may have, unless the caller sets another bound.
const TOKEN_LIMIT: usize = 65_536;

/// The keys of all services of an acceptor, of all realms, types and versions. It judges tokens, and has no book: it admits nobody.
/// Threads may share one.
#[derive(Drop)]
pub struct Keyring {
    services: ByName,
    count: u64,
    /// The number of bytes that a token may have: a longer one is not read.
    pub token_limit: usize,
}

impl Keyring {
    /// Returns a ring without a key. A token may have 65,536 bytes.
    pub fn new(alloc: Global) -> Keyring
        ensures empty { (name : List (List ℕ)) → held result name ≡ [] }
        ensures count { result.count ≡ 0 }
        ensures limit { result.token_limit ≡ token_limit }
    {
        Keyring {
            services: IndexMap::new(alloc),
            count: 0,
            token_limit: TOKEN_LIMIT,
        }
    }

    /// Adds copies of all entries of a keytab, after the existing ones. If memory runs out the ring is unchanged.
    pub fn add_keytab(&mut self, alloc: Global, keytab: &Keytab) -> Result<(), OutOfMemory>
        ensures added { OnOk result ((name : List (List ℕ)) → held self.new name ≡ held self.old name ++ named name keytab.now.entries) }
        ensures count { OnOk result (self.new.count ≡ min (self.old.count + length keytab.now.entries) (2 ^ 64 - 1)) }
        ensures stays { OnErr result ((name : List (List ℕ)) → held self.new name ≡ held self.old name) }
        ensures count_stays { OnErr result (self.new.count ≡ self.old.count) }
        ensures limit { self.new.token_limit ≡ self.old.token_limit }
    {
        let entries = keytab.entries.as_slice();
        add_all(alloc, &mut self.services, entries)?;
        self.count = self.count.saturating_add(entries.len() as u64);
        Ok(())
    }

    /// Returns the number of keys that were added.
    pub fn len(&self) -> u64
        ensures { result ≡ self.now.count }
    {
        self.count
    }

    /// Returns the entries of a service, by one look-up.
    fn entries_of(&self, components: &Items<Name>) -> &[KeytabEntry]
        ensures { result.now ≡ held self.now components.now }
    {
        match self.services.get(components) {
            Some(entries) => entries.items.as_slice(),
            None => &[],
        }
    }

    /// Returns the AP-REQ in a token that is not longer than the limit.
    fn read(&self, alloc: Global, token: &[u8]) -> Result<ApReq, Cause>
        ensures { Answers (Reads self.now.token_limit token.now) result }
    {
        hold(token.len() <= self.token_limit, Cause::Shape)?;
        read_token(alloc, token)
    }

    /// Judges a token by the keys that its ticket chooses.
    fn judge_ticket(
        &self,
        alloc: Global,
        ticket: &Ticket,
        channel: Option<[u8; 16]>,
        token: &[u8],
        draw: &Draw,
    ) -> Result<Candidate, Error>
        ensures opens { IfOk result (Opens (map (single self.now.token_limit) (chosen self.now ticket.now)) channel token.now draw.now) }
        ensures client { IfOk result (λ candidate. candidate.client.value ≡ client_told candidate.judged.request) }
        ensures refused { IfErr result (EndsBy self.now.token_limit (chosen self.now ticket.now) channel token.now draw.now) }
    {
        let chosen = chosen_of(alloc, ticket, self.entries_of(&ticket.sname.name_string))?;
        judge_by(alloc, self.token_limit, &chosen, channel, token, draw)
    }

    /// Judges a token without a book: the first half of an admission, with every cipher in it. The key is the one that the ticket
    /// names in the clear by its service, realm, encryption type and version. If the ticket names no version, or one that the ring
    /// has not, the keys of the service, the realm and the type are tried in turn, newest first. If `channel` is given, the client
    /// is bound to it, as at [`krb_entrance::Keys::judge`].
    ///
    /// Fails with `Shape` if the token is no AP-REQ or longer than `token_limit`, with `NoServiceKey` if the ring has no key for its
    /// ticket, otherwise by the first check before the book that fails: that of the newest key if no key decrypts the ticket.
    pub fn judge(
        &self,
        alloc: Global,
        channel: Option<[u8; 16]>,
        token: &[u8],
        draw: &Draw,
    ) -> Result<Candidate, Error>
        ensures opens { IfOk result (OpensByRing self.now channel token.now draw.now) }
        ensures client { IfOk result (λ candidate. candidate.client.value ≡ client_told candidate.judged.request) }
        ensures refused { IfErr result (RefusesByRing self.now channel token.now draw.now) }
    {
        match self.read(alloc, token) {
            Ok(message) => self.judge_ticket(alloc, &message.ticket, channel, token, draw),
            Err(cause) => Err(Error::from(cause)),
        }
    }
}
