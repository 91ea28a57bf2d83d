//! The steps of a dialogue.

ghost use Rattle.std.specs.Prelude.{◌≡◌, ◌≤◌, IfOk, OnOk};
ghost use Rattle.krb_context.specs.Params.{key_of};
ghost use Rattle.sspi_core.specs.Moments.{last_moment};
ghost use Rattle.krb_dialogue.specs.Dialogues.{options_with};
ghost use Rattle.krb_dialogue.specs.Steps.{in_time, in_turn, next_of, is_sized, can_end};

use crate::dialogue::{Dialogue, Next, Turn};
use crate::exchange::{Exchange, Outcome, begin, continue_exchange};
use krb_as::InitDone;
use krb_conf::Env;
use krb_context::{ContextChange, EncryptionParams};
use krb_der::{Copier, Octets, OutOfMemory};
use krb_initiator::{InitOptions, Initiation, begin_initiation};
use sspi_core::{Cause, Draw, Error, MAX_MOMENT, SecurityStatus};
use sspi_generator::{NetFault, NetworkRequest};
use std::alloc::Global;
use std::mem;

/// Fails with `Moment` if a step's moment is past the end of 9999-12-28.
fn in_time(draw: &Draw) -> Result<(), Cause>
    ensures same { result ≡ in_time draw.now }
    ensures moment { OnOk result (draw.now.moment ≤ last_moment) }
{
    if draw.moment <= MAX_MOMENT {
        Ok(())
    } else {
        Err(Cause::Moment)
    }
}

/// Fails with `Sequence` if a step does not come in its turn.
fn in_turn(may_come: bool) -> Result<(), Cause>
    ensures { result ≡ in_turn may_come }
{
    if may_come {
        Ok(())
    } else {
        Err(Cause::Sequence)
    }
}

/// Returns the turn after an exchange that is over.
fn next_of(status: SecurityStatus) -> Next
    ensures { result ≡ next_of status }
{
    match status {
        SecurityStatus::Ok => Next::Established,
        SecurityStatus::ContinueNeeded => Next::SendToken,
    }
}

/// Returns whether the key is there, and as long as the keys of the suite.
fn is_sized(params: &EncryptionParams) -> bool
    ensures { result ≡ is_sized params.now (key_of params.now) }
{
    match params.key() {
        Some(key) => key.as_slice().len() == params.suite().key_size(),
        None => false,
    }
}

/// Returns whether a context that is established by this change has a key of its suite's length.
fn can_end(change: &ContextChange) -> bool
    ensures { result ≡ can_end change.now }
{
    !change.state.is_final() || is_sized(&change.encryption_params)
}

/// Returns the options with the service's token: all is copied, since the run keeps it.
fn options_with(
    alloc: Global,
    options: &InitOptions,
    token: &[u8],
) -> Result<InitOptions, OutOfMemory>
    ensures { IfOk result (λ copy. copy ≡ options_with options.now token.now) }
{
    let token = Octets::from_slice(alloc, token)?;
    let mut copier = Copier::new(alloc);
    let copy = InitOptions {
        flags: options.flags,
        target: copier.copy(&options.target),
        token,
        credentials: copier.copy(&options.credentials),
        channel_bindings: copier.copy(&options.channel_bindings),
        env: Env {
            vars: copier.copy(&options.env.vars),
            files: copier.copy(&options.env.files),
        },
    };
    copier.finish(copy)
}

impl Dialogue {
    ghost use Rattle.std.specs.Prelude.{◌≡◌, ◌≤◌, ◌<◌, Ok, Err, [], IfOk, IfErr};
    ghost use Rattle.sspi_core.specs.Kinds.{error_of};
    ghost use Rattle.sspi_core.specs.Moments.{last_moment};
    ghost use Rattle.sspi_core.specs.declared.cause.Cause.TheVariants as causes;
    ghost use Rattle.sspi_generator.specs.Steps.{IsFailure};
    ghost use Rattle.sspi_generator.specs.declared.network.NetFault.TheVariants as net_faults;
    ghost use Rattle.krb_dialogue.specs.Outcomes.{IsNetwork};
    ghost use Rattle.krb_initiator.specs.InitRuns.{turns_left};
    ghost use Rattle.krb_initiator.specs.Seekers.{CanBegin};
    ghost use Rattle.krb_dialogue.specs.Dialogues.{is_asking, can_start, can_hear, requests_left, options_with};
    ghost use Rattle.krb_dialogue.specs.Steps.{next_of, ended, EndsIn, LeadsTo, Opens, Continues, Undertakes, TakesReply, Allows, in_turn, Starts, Hears, Takes, Steps};

    /// Returns whether the dialogue may begin.
    fn can_start(&self) -> bool
        ensures { result ≡ can_start self.now }
    {
        !self.is_asking() && self.session.session.connection.state.is_waiting()
    }

    /// Ends an exchange: the context takes its change, and the token is kept.
    fn end(&mut self, done: InitDone) -> Next
        ensures next { result ≡ next_of done.status }
        ensures context { self.new ≡ ended self.old done }
    {
        let InitDone {
            status,
            token,
            change,
        } = done;
        let session = &mut self.session.session;
        session.connection.settle(change);
        session.answer = token;
        self.turn = Turn::Shows;
        next_of(status)
    }

    /// Ends an exchange, or fails with `KeyLength` if its context cannot be established so.
    fn end_if(&mut self, fits: bool, done: InitDone) -> Result<Next, Error>
        ensures { EndsIn fits self.old done result self.new }
    {
        if fits {
            Ok(self.end(done))
        } else {
            Err(Error::from(Cause::KeyLength))
        }
    }

    /// Takes the outcome of a step of the dialogue's exchange.
    fn take_outcome(&mut self, outcome: Outcome) -> Result<Next, Error>
        ensures leads { LeadsTo self.old outcome result self.new }
    {
        match outcome {
            Outcome::Asks(request, exchange) => {
                self.turn = Turn::Asks(request, exchange);
                Ok(Next::AskKdc)
            }
            Outcome::Ends(done) => {
                let fits = can_end(&done.change);
                self.end_if(fits, done)
            }
            Outcome::Refused(error) => Err(error),
        }
    }

    /// Begins an exchange, with the ticket that is held if there is one. If memory runs out the exchange does not begin.
    #[tactic(auto, using(crate::proofs::Led::led_down, crate::proofs::Led::led_fault, crate::proofs::Led::led_back))]
    fn open(&mut self, alloc: Global, initiation: Initiation, draw: &Draw) -> Result<Next, Error>
        requires can { CanBegin initiation }
        requires moment { draw.now.moment ≤ last_moment }
        ensures opens { Steps (Opens self.old initiation draw.now) result self.new }
        ensures want { result ≡ Err (error_of causes.Memory) → self.new ≡ self.old }
        ensures turns { result ≡ Ok Next.AskKdc → requests_left self.new.turn < 12 }
        ensures fault { IfErr result (λ error. IsNetwork error → ⊥) }
    {
        let outcome = begin(alloc, &self.held, initiation, draw)?;
        self.take_outcome(outcome)
    }

    /// Begins the initiation that the state and these options name. If memory runs out the dialogue is unchanged.
    #[tactic(auto, using(crate::proofs::Led::undertakes, crate::proofs::Led::undertakes_not))]
    fn set_out(&mut self, alloc: Global, options: InitOptions, draw: &Draw) -> Result<Next, Error>
        requires moment { draw.now.moment ≤ last_moment }
        ensures undertakes { Steps (Undertakes self.old options draw.now) result self.new }
        ensures want { result ≡ Err (error_of causes.Memory) → self.new ≡ self.old }
        ensures turns { result ≡ Ok Next.AskKdc → requests_left self.new.turn < 12 }
        ensures fault { IfErr result (λ error. IsNetwork error → ⊥) }
    {
        match begin_initiation(alloc, &self.session.session.connection, &options) {
            Ok(initiation) => self.open(alloc, initiation, draw),
            Err(cause) => Err(Error::from(cause)),
        }
    }

    /// Begins the initiation that the state, the options and this token name. If memory runs out the dialogue is unchanged.
    fn undertake(&mut self, alloc: Global, token: &[u8], draw: &Draw) -> Result<Next, Error>
        requires moment { draw.now.moment ≤ last_moment }
        ensures undertakes { Steps (Undertakes self.old (options_with self.old.options token.now) draw.now) result self.new }
        ensures want { result ≡ Err (error_of causes.Memory) → self.new ≡ self.old }
        ensures turns { result ≡ Ok Next.AskKdc → requests_left self.new.turn < 12 }
        ensures fault { IfErr result (λ error. IsNetwork error → ⊥) }
    {
        let options = options_with(alloc, &self.options, token)?;
        self.set_out(alloc, options, draw)
    }

    /// Continues the dialogue's exchange, which was taken out of it. If memory runs out the answer is awaited as before.
    #[tactic(auto, using(crate::proofs::Led::led_down, crate::proofs::Led::led_fault, crate::proofs::Led::never_wants))]
    fn go_on(
        &mut self,
        request: NetworkRequest,
        exchange: Exchange,
        reply: Result<Octets, NetFault>,
        draw: &Draw,
    ) -> Result<Next, Error>
        requires moment { draw.now.moment ≤ last_moment }
        ensures goes_on { Steps (Continues self.old exchange reply draw.now) result self.new }
        ensures want { result ≡ Err (error_of causes.Memory) → self.new ≡ record self.old { turn = Turn.Asks request exchange } }
        ensures turns { result ≡ Ok Next.AskKdc → requests_left self.new.turn < turns_left exchange.phase }
        ensures fault { IfErr result (λ error. IsNetwork error → IsFailure reply) }
    {
        match continue_exchange(exchange, reply, draw) {
            Ok(outcome) => self.take_outcome(outcome),
            Err(exchange) => {
                self.turn = Turn::Asks(request, exchange);
                Err(Error::from(Cause::Memory))
            }
        }
    }

    /// Takes the network's answer, if it is awaited.
    fn take_reply(&mut self, reply: Result<Octets, NetFault>, draw: &Draw) -> Result<Next, Error>
        requires moment { draw.now.moment ≤ last_moment }
        ensures takes { Steps (TakesReply self.old.turn self.old reply draw.now) result self.new }
        ensures want { result ≡ Err (error_of causes.Memory) → self.new ≡ self.old }
        ensures turns { result ≡ Ok Next.AskKdc → requests_left self.new.turn < requests_left self.old.turn }
        ensures fault { IfErr result (λ error. IsNetwork error → IsFailure reply) }
    {
        match mem::replace(&mut self.turn, Turn::Rests) {
            Turn::Asks(request, exchange) => self.go_on(request, exchange, reply, draw),
            Turn::Rests => Err(Error::from(Cause::Sequence)),
            Turn::Shows => {
                self.turn = Turn::Shows;
                Err(Error::from(Cause::Sequence))
            }
        }
    }

    /// Starts at a moment in its range.
    fn start_in_time(&mut self, alloc: Global, draw: &Draw) -> Result<Next, Error>
        requires moment { draw.now.moment ≤ last_moment }
        ensures step { Steps (Allows (in_turn (can_start self.old)) (Undertakes self.old (options_with self.old.options []) draw.now) self.old) result self.new }
        ensures want { result ≡ Err (error_of causes.Memory) → self.new ≡ self.old }
        ensures turns { result ≡ Ok Next.AskKdc → requests_left self.new.turn < 12 }
        ensures fault { IfErr result (λ error. IsNetwork error → ⊥) }
    {
        match in_turn(self.can_start()) {
            Ok(()) => self.undertake(alloc, &[], draw),
            Err(cause) => Err(Error::from(cause)),
        }
    }

    /// Takes the service's token at a moment in its range.
    fn hear_in_time(&mut self, alloc: Global, token: &[u8], draw: &Draw) -> Result<Next, Error>
        requires moment { draw.now.moment ≤ last_moment }
        ensures step { Steps (Allows (in_turn (can_hear self.old)) (Undertakes self.old (options_with self.old.options token.now) draw.now) self.old) result self.new }
        ensures want { result ≡ Err (error_of causes.Memory) → self.new ≡ self.old }
        ensures turns { result ≡ Ok Next.AskKdc → requests_left self.new.turn < 12 }
        ensures fault { IfErr result (λ error. IsNetwork error → ⊥) }
    {
        match in_turn(!self.is_asking()) {
            Ok(()) => self.undertake(alloc, token, draw),
            Err(cause) => Err(Error::from(cause)),
        }
    }

    /// Begins: a KDC is asked for the service's ticket, or with `USE_SESSION_KEY` the service is asked for its own. With a ticket that was
    /// set there is no AS exchange: a ticket for the service is sent to the service at once, and one for a ticket-granting service to its KDC.
    ///
    /// Fails with `Moment` if the moment is past the end of 9999-12-28, with `Sequence` if a KDC's answer is awaited or the service
    /// was sent a ticket, otherwise as `initialize_security_context` fails, or the first step of its run, or
    /// [`start_held`](krb_tickets::start_held). An error changes nothing.
    pub fn start(&mut self, alloc: Global, draw: &Draw) -> Result<Next, Error>
        ensures step { Steps (Starts self.old draw.now) result self.new }
        // If memory runs out, the step can be repeated.
        ensures want { result ≡ Err (error_of causes.Memory) → self.new ≡ self.old }
        // A KDC is asked at most twelve times.
        ensures turns { result ≡ Ok Next.AskKdc → requests_left self.new.turn < 12 }
        // No error is a failure of the network.
        ensures fault { IfErr result (λ error. IsNetwork error → ⊥) }
    {
        match in_time(draw) {
            Ok(()) => self.start_in_time(alloc, draw),
            Err(cause) => Err(Error::from(cause)),
        }
    }

    /// Takes the service's token: its answer to a ticket, or its own ticket.
    ///
    /// Fails with `Moment` if the moment is past the end of 9999-12-28, with `Sequence` if a KDC's answer is awaited or the context is
    /// established, otherwise as `initialize_security_context` fails, or the first step of its run; then with `KeyLength` if the context
    /// would be established with a key that does not have the length of its suite's keys. An error changes nothing.
    pub fn hear(&mut self, alloc: Global, token: &[u8], draw: &Draw) -> Result<Next, Error>
        ensures step { Steps (Hears self.old token.now draw.now) result self.new }
        ensures want { result ≡ Err (error_of causes.Memory) → self.new ≡ self.old }
        ensures turns { result ≡ Ok Next.AskKdc → requests_left self.new.turn < 12 }
        ensures fault { IfErr result (λ error. IsNetwork error → ⊥) }
    {
        match in_time(draw) {
            Ok(()) => self.hear_in_time(alloc, token, draw),
            Err(cause) => Err(Error::from(cause)),
        }
    }

    /// Takes the KDC's answer, with the four bytes that its protocol puts first.
    ///
    /// Fails with `Moment` if the moment is past the end of 9999-12-28, with `Sequence` if no answer is awaited, and then nothing is
    /// changed. Otherwise fails as the step of the run fails; that ends the exchange, and the context is as it was before.
    pub fn answer(&mut self, alloc: Global, octets: &[u8], draw: &Draw) -> Result<Next, Error>
        ensures step { Steps (Takes self.old (Ok octets.now) draw.now) result self.new }
        ensures want { result ≡ Err (error_of causes.Memory) → self.new ≡ self.old }
        ensures turns { result ≡ Ok Next.AskKdc → requests_left self.new.turn < requests_left self.old.turn }
        ensures fault { IfErr result (λ error. IsNetwork error → ⊥) }
    {
        match in_time(draw) {
            Ok(()) => {
                let octets = Octets::from_slice(alloc, octets)?;
                self.take_reply(Ok(octets), draw)
            }
            Err(cause) => Err(Error::from(cause)),
        }
    }

    /// Records that the KDC gave no answer, with a code of the caller's. Fails with that code, which ends the exchange.
    ///
    /// Fails with `Moment` if the moment is past the end of 9999-12-28, with `Sequence` if no answer is awaited, and then nothing is
    /// changed.
    pub fn fault(&mut self, code: u32, draw: &Draw) -> Result<Next, Error>
        ensures step { Steps (Takes self.old (Err (net_faults.Failed code)) draw.now) result self.new }
        ensures want { result ≡ Err (error_of causes.Memory) → self.new ≡ self.old }
        ensures turns { result ≡ Ok Next.AskKdc → requests_left self.new.turn < requests_left self.old.turn }
    {
        match in_time(draw) {
            Ok(()) => self.take_reply(Err(NetFault::Failed(code)), draw),
            Err(cause) => Err(Error::from(cause)),
        }
    }
}
