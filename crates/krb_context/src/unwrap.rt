//! Opening a message.

ghost use Rattle.std.specs.Prelude.{◌≡◌, ◌-◌, ◌≤◌, ℕ, List, length, ℤ, IfSome, IfOk, IfErr, OnErr, OnOk, Ok, false};
ghost use Rattle.std.specs.Result.{result_map_both};
ghost use Rattle.sspi_core.specs.Checks.{Answers, Holds, Passes, Takes};
ghost use Rattle.sspi_core.specs.Messages.{find_part};
ghost use Rattle.sspi_core.specs.declared.cause.Cause.TheVariants as causes;
ghost use Rattle.sspi_core.specs.declared.buffer.Part.TheVariants as parts;
ghost use Rattle.sspi_core.specs.declared.error.Place.TheVariants as places;
ghost use Rattle.krb_context.specs.Header.{number_of};
ghost use Rattle.krb_context.specs.Places.{verdict_of, opened};
ghost use Rattle.krb_context.specs.Refusals.{Refuses};
ghost use Rattle.krb_context.specs.Spelled.{spelled, has_part};
ghost use Rattle.krb_context.specs.Unwraps.{header_of, count_for, has_count, Heads, aged, ReceivesMessage, Unwraps, message_number, unwrapped};
ghost use Rattle.krb_context.specs.Whole.{whole_message};
ghost use Rattle.krb_context.specs.Window.{StandsFor, number_verdict, noted};

use crate::buffers::Buffers;
use crate::context::Kerberos;
use crate::headed::Headed;
use crate::header::{check_direction, ec_of, is_sealed, is_wrap_header, number_of};
use crate::kept::keep_codes;
use crate::opened::OpenedText;
use crate::params::EncryptionParams;
use crate::parties::{check_key_size, ready_key};
use crate::rules::Rules;
use crate::text::{TokenText, has_part};
use crate::window::{NumberVerdict, NumberWindow};
use krb_der::Octets;
use sspi_core::{Cause, Error, Message, Part, SecurityBufferRef, hold};
use std::alloc::Global;

/// The header of a wrap token.
fn header_of(text: &TokenText<'_>) -> Result<[u8; 16], Cause>
    ensures { Takes causes.Header (header_of text.now) result }
{
    if text.len() < 16 {
        return Err(Cause::Header);
    }
    let header = text.header();
    if is_wrap_header(&header) {
        Ok(header)
    } else {
        Err(Cause::Header)
    }
}

fn check_count(ec: u16, header: &[u8; 16]) -> Result<(), Cause>
    ensures { Holds causes.ExtraCount (has_count ec header.now) result }
{
    hold(!is_sealed(header) || ec_of(header) == ec, Cause::ExtraCount)
}

fn plain_data<'a>(message: &'a Buffers<'_>) -> Result<&'a SecurityBufferRef, Cause>
    ensures { Takes causes.Buffers (find_part parts.Plain message.now) (result_map_both (λ plain. plain.now) (λ e. e) result) }
{
    match message.plain() {
        Some(plain) => Ok(plain),
        None => Err(Cause::Buffers),
    }
}

fn check_number(window: &NumberWindow, header: &[u8; 16]) -> Result<(), Cause>
    ensures { Passes (aged (number_verdict window.now (number_of header.now))) result }
{
    match window.judge(number_of(header)) {
        NumberVerdict::Fresh => Ok(()),
        NumberVerdict::Old => Err(Cause::Old),
        NumberVerdict::Repeated => Err(Cause::Repeated),
    }
}

/// Returns the extra count (EC) that a text is opened by.
fn count_for(rules: Rules, ec: u16, text: &TokenText<'_>) -> u16
    ensures { result ≡ count_for rules ec text.now }
{
    if rules.has(Rules::EXTRA_COUNT_BY_TOKEN) && 16 <= text.len() {
        ec_of(&text.header())
    } else {
        ec
    }
}

impl EncryptionParams {
    /// Checks the header of a token, with this extra count (EC), and returns the header.
    fn head(
        &self,
        ec: u16,
        key: &Octets,
        peer: bool,
        text: &TokenText<'_>,
    ) -> Result<[u8; 16], Cause>
        ensures { Heads (record self.now { ec = ec }) key.now peer text.now result }
    {
        let header = header_of(text)?;
        check_direction(peer, &header)?;
        check_count(ec, &header)?;
        check_key_size(self, key)?;
        Ok(header)
    }
}

impl Kerberos {
    /// The text of a message whose token has these octets.
    fn receive(
        &mut self,
        alloc: Global,
        message: &Buffers<'_>,
        text: &TokenText<'_>,
        peer: bool,
    ) -> Result<OpenedText, Cause>
        requires { text.now ≡ spelled message.now }
        ensures stays { self.new ≡ self.old }
        ensures receives { Answers (ReceivesMessage self.old peer message.now text.now) result }
    {
        let params = &self.encryption_params;
        let key = ready_key(self.state, params)?;
        let plain = plain_data(message)?;
        let ec = count_for(self.rules, params.ec, text);
        let header = params.head(ec, key, peer, text)?;
        let headed = Headed {
            params,
            ec,
            key,
            peer,
            message,
            text,
            header: &header,
        };
        let opened = headed.open(&mut self.kept_to_open, alloc, plain)?;
        check_number(&self.window, &header)?;
        Ok(opened)
    }

    /// The text of a message.
    fn open(&mut self, alloc: Global, message: &Buffers<'_>) -> Result<OpenedText, Cause>
        ensures stays { self.new ≡ self.old }
        ensures opens { Answers (Unwraps self.old message.now) result }
    {
        let peer = self.is_client();
        let text = message.text();
        self.receive(alloc, message, &text, peer)
    }
}

/// The number of a message that was opened.
fn message_number(message: &Buffers<'_>) -> u32
    requires { 16 ≤ length (spelled message.now) }
    ensures { result ≡ message_number message.now }
{
    number_of(&message.text().header())
}

/// The buffers once a text was taken out of them.
fn put_opened(alloc: Global, message: &mut Message, opened: Octets)
    requires { has_part parts.Stream message.old ≡ false → IfSome (find_part parts.Plain message.old) (λ b. length opened ≤ b.limit) }
    ensures { message.new ≡ unwrapped opened message.old }
{
    if has_part(message, Part::Stream) {
        message.write_whole(Part::Plain, opened);
        message.write_whole(Part::Stream, Octets::new(Vec::new(alloc)));
    } else {
        message.write(Part::Plain, opened);
    }
}

impl Kerberos {
    /// The text of a message, whose number is recorded as opened.
    fn open_once(&mut self, alloc: Global, message: &Buffers<'_>) -> Result<OpenedText, Cause>
        ensures opens { Answers (Unwraps self.old message.now) result }
        ensures long { OnOk result (16 ≤ length (spelled message.now)) }
        ensures after { OnOk result (self.new ≡ record self.old { window = noted self.old.window (message_number message.now) }) }
        ensures numbers { OnOk result ((numbers : List ℤ) → StandsFor self.old.window numbers
            → (verdict_of numbers (message_number message.now) ≡ NumberVerdict.Fresh)
            × StandsFor self.new.window (opened numbers (message_number message.now))) }
        ensures stays { OnErr result (self.new ≡ self.old) }
    {
        let opened = self.open(alloc, message)?;
        self.window.note(message_number(message));
        keep_codes(
            alloc,
            &self.encryption_params,
            self.server.is_some(),
            &mut self.kept_to_seal,
            &mut self.kept_to_open,
        );
        Ok(opened)
    }

    /// Opens a message: the plain data become its text, and its sequence number is recorded as opened. The octets of the stream
    /// follow the token, or the plain data if there is no stream; with a stream the plain data hold the whole text whatever their
    /// limit was, and the stream is empty afterwards.
    ///
    /// Fails, in this order, with `Sequence` before the exchange is over or if there is no key; `Buffers` without plain data;
    /// `Header`, `Direction`, `ExtraCount`, `KeyLength`, `Short`, `Room`, `Altered`, `Old`, `Repeated`. After an error the message
    /// and the context are unchanged.
    pub fn decrypt_message(&mut self, alloc: Global, message: &mut Message) -> Result<(), Error>
        ensures opened { OnOk result ((p : List ℕ) × Unwraps self.old message.old (Ok p) × (message.new ≡ unwrapped p message.old)
            × (self.new ≡ record self.old { window = noted self.old.window (message_number message.old) })) }
        ensures numbers { OnOk result ((numbers : List ℤ) → StandsFor self.old.window numbers
            → (verdict_of numbers (message_number message.old) ≡ NumberVerdict.Fresh)
            × StandsFor self.new.window (opened numbers (message_number message.old))) }
        ensures refused { IfErr result (λ error. Refuses places.Elsewhere (Unwraps self.old message.old) error) }
        ensures stays { OnErr result ((message.new ≡ message.old) × (self.new ≡ self.old)) }
    {
        let opened = self.open_once(alloc, &Buffers::of(message))?;
        put_opened(alloc, message, opened.into_octets());
        Ok(())
    }
    /// Decrypts a token that came whole, or checks one in the clear, and returns its text. Its sequence number is recorded as opened.
    ///
    /// Fails, in this order, with `Sequence` before the exchange is over or if there is no key; `Header`, `Direction`, `ExtraCount`,
    /// `KeyLength`, `Short`, `Altered`, `Old`, `Repeated`. After an error the context is unchanged.
    pub fn unwrap_token(&mut self, alloc: Global, token: &[u8]) -> Result<OpenedText, Error>
        ensures opened { IfOk result (λ text. Unwraps self.old (whole_message token.now) (Ok text)) }
        ensures long { OnOk result (16 ≤ length token.now) }
        ensures after { OnOk result (self.new
            ≡ record self.old { window = noted self.old.window (message_number (whole_message token.now)) }) }
        ensures numbers { OnOk result ((numbers : List ℤ) → StandsFor self.old.window numbers
            → (verdict_of numbers (message_number (whole_message token.now)) ≡ NumberVerdict.Fresh)
            × StandsFor self.new.window (opened numbers (message_number (whole_message token.now)))) }
        ensures refused { IfErr result (λ error. Refuses places.Elsewhere (Unwraps self.old (whole_message token.now)) error) }
        ensures stays { OnErr result (self.new ≡ self.old) }
    {
        let opened = self.open_once(alloc, &Buffers::whole(alloc, token))?;
        Ok(opened)
    }
}
