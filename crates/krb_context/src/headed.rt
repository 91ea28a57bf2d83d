//! A message whose header is checked, and its text.

ghost use Rattle.std.specs.Prelude.{◌≡◌, ◌+◌, ◌-◌, ◌≤◌, length, true, false};
ghost use Rattle.krb_crypto.specs.Suite.{kc};
ghost use Rattle.sspi_core.specs.Checks.{Answers, Finds, Holds};
ghost use Rattle.sspi_core.specs.declared.cause.Cause.TheVariants as causes;
ghost use Rattle.krb_context.specs.Header.{is_sealed};
ghost use Rattle.krb_context.specs.Headed.{IsHeaded};
ghost use Rattle.krb_context.specs.Params.{suite_of};
ghost use Rattle.krb_context.specs.Parties.{keys_of, seal_usage};
ghost use Rattle.krb_context.specs.Spelled.{spelled};
ghost use Rattle.krb_context.specs.Spelt.{Spelt, SpeltClear, sealed_turn};
ghost use Rattle.krb_context.specs.Unwraps.{extra_of, is_long, has_room, SpeltBy, OpensBody};

use crate::buffers::Buffers;
use crate::header::{ec_of, is_sealed, rrc_of};
use crate::kept::KeptKey;
use crate::open::{open_clear, open_sealed};
use crate::opened::OpenedText;
use crate::params::EncryptionParams;
use crate::parties::seal_usage;
use crate::text::TokenText;
use krb_der::Octets;
use sspi_core::{Cause, SecurityBufferRef, hold, take};
use std::alloc::Global;

/// Returns the count of octets of a body in addition to its text.
fn extra_of(header: &[u8; 16]) -> usize
    ensures { result ≡ extra_of header.now }
{
    if is_sealed(header) {
        44 + ec_of(header) as usize
    } else {
        ec_of(header) as usize
    }
}

/// How far a sealed body of `len` octets is turned to the right.
fn sealed_turn(ec: u16, rrc: u16, len: usize) -> usize
    requires { 44 + ec ≤ len }
    ensures is { result ≡ sealed_turn ec rrc len }
    ensures fits { result ≤ len }
{
    if rrc == 28 {
        28 + ec as usize
    } else {
        rrc as usize % len
    }
}

/// A message whose header is checked, and what it is opened with.
#[derive(Drop)]
pub(crate) struct Headed<'a> {
    pub(crate) params: &'a EncryptionParams,
    /// The extra count (EC), in octets, that the message is opened by.
    pub(crate) ec: u16,
    pub(crate) key: &'a Octets,
    /// True if the message came from an acceptor.
    pub(crate) peer: bool,
    pub(crate) message: &'a Buffers<'a>,
    pub(crate) text: &'a TokenText<'a>,
    pub(crate) header: &'a [u8; 16],
    ghost of_message: { text.now ≡ spelled message.now },
    ghost checked: { IsHeaded (record params.now { ec = ec }) key.now peer text.now header.now },
}

impl Headed<'_> {
    /// The length of the body.
    fn body_len(&self) -> usize
        ensures { result ≡ length self.now.text.now - 16 }
    {
        self.text.len() - 16
    }

    fn check_long(&self) -> Result<(), Cause>
        ensures { Holds causes.Short (is_long self.now.header.now (length self.now.text.now - 16)) result }
    {
        let len = self.body_len();
        hold(1 <= len && extra_of(self.header) <= len, Cause::Short)
    }

    fn check_room(&self, plain: &SecurityBufferRef) -> Result<(), Cause>
        ensures { Holds causes.Room (has_room self.now.message.now plain.now (length self.now.text.now - 16 - extra_of self.now.header.now)) result }
    {
        let text_len = self.body_len().saturating_sub(extra_of(self.header));
        hold(
            self.message.has_stream() || text_len <= plain.limit(),
            Cause::Room,
        )
    }

    /// Finds the text of a sealed message.
    fn find_sealed(&self, kept_to_open: &mut KeptKey, alloc: Global) -> Result<OpenedText, Cause>
        requires long { is_long self.now.header.now (length self.now.text.now - 16) ≡ true }
        requires sealed { is_sealed self.now.header.now ≡ true }
        ensures { Answers (Finds causes.Altered (λ p. Spelt (keys_of self.now.params.now self.now.key.now self.now.peer) self.now.peer
            self.now.ec self.now.message.now p)) result }
    {
        let params = self.params;
        let turn = sealed_turn(self.ec, rrc_of(self.header), self.body_len());
        let whole = self.text.turned_body(alloc, turn)?;
        let key = self.key.as_slice();
        let kept = kept_to_open.take(alloc, params.suite(), key, seal_usage(self.peer))?;
        let found = open_sealed(
            &kept.sealing,
            self.message,
            self.header,
            self.ec as usize,
            whole,
        );
        kept_to_open.put(kept);
        take(found, Cause::Altered)
    }

    /// Finds the text of a message in the clear.
    fn find_clear(&self, alloc: Global) -> Result<OpenedText, Cause>
        requires long { is_long self.now.header.now (length self.now.text.now - 16) ≡ true }
        requires clear { is_sealed self.now.header.now ≡ false }
        ensures { Answers (Finds causes.Altered (λ p. SpeltClear (kc (suite_of self.now.params.now) self.now.key.now (seal_usage self.now.peer))
            self.now.peer self.now.message.now p)) result }
    {
        let turn = rrc_of(self.header) as usize % self.body_len();
        let whole = self.text.turned_body(alloc, turn)?;
        let found = open_clear(
            self.params.suite(),
            self.key.as_slice(),
            seal_usage(self.peer),
            self.header,
            whole,
        );
        take(found, Cause::Altered)
    }

    /// The text.
    fn find(&self, kept_to_open: &mut KeptKey, alloc: Global) -> Result<OpenedText, Cause>
        requires { is_long self.now.header.now (length self.now.text.now - 16) ≡ true }
        ensures { Answers (Finds causes.Altered (λ p. SpeltBy (is_sealed self.now.header.now) (record self.now.params.now { ec = self.now.ec }) self.now.key.now self.now.peer
            self.now.message.now p)) result }
    {
        if is_sealed(self.header) {
            self.find_sealed(kept_to_open, alloc)
        } else {
            self.find_clear(alloc)
        }
    }

    /// The text, once the body is checked too.
    pub(crate) fn open(
        &self,
        kept_to_open: &mut KeptKey,
        alloc: Global,
        plain: &SecurityBufferRef,
    ) -> Result<OpenedText, Cause>
        ensures { Answers (OpensBody (record self.now.params.now { ec = self.now.ec }) self.now.key.now self.now.peer self.now.message.now plain.now self.now.text.now
            self.now.header.now) result }
    {
        self.check_long()?;
        self.check_room(plain)?;
        self.find(kept_to_open, alloc)
    }
}
