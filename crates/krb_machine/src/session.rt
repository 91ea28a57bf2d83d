//! A session: it takes one line after another, and replies to each event as it comes.
use crate::closing::end_line;
use crate::described::service_of;
use crate::reply::Reply;
use crate::service::Service;
use arrayvec::ArrayString;
use krb_der::OutOfMemory;
use krb_lines::{LineError, LineTaker, ROOM};
use krb_replay::ReplayBook;
use krb_script::{Declaration, Event, FieldError, Item, Script, parse_item};
use krb_text::is_skipped;
use std::alloc::Global;
use std::marker::Model;
use std::mem;

/// The declarations of the lines so far, and the service from the first event on.
#[derive(Drop)]
pub struct Session {
    script: Script,
    service: Option<Service<ReplayBook>>,
    lines: u64,
    answered: u64,
    admitted: u64,
}

impl Model for Session {
    ghost use Rattle.krb_machine.specs.Progress.{Progress};

    ghost Value = { Progress };

    ghost view = { λ s. record { setup = s.script; service = s.service; lines = s.lines; answered = s.answered; admitted = s.admitted } };
}

impl Session {
    ghost use Rattle.std.specs.Prelude.{◌≡◌, ◌<◌, ◌≤◌, ◌^◌, ◌+◌, Some, None, OnOk, OnErr, MatchOption, MatchResult, string_bytes};
    ghost use Rattle.krb_script.specs.declared.fields.FieldError.TheVariants.{Bad};
    ghost use Rattle.krb_machine.specs.Progress.{new_progress, BeginsService, CannotBegin, one_if_admits, Answers, prepare, Prepares, TakesContent, RefusesContent};
    ghost use Rattle.krb_machine.specs.LineRules.{kept_by};

    pub fn new(alloc: Global) -> Session
        ensures { result ≡ new_progress }
    {
        Session {
            script: Script::new(alloc),
            service: None,
            lines: 0,
            answered: 0,
            admitted: 0,
        }
    }

    /// Returns how many events admitted their peer.
    pub fn admitted(&self) -> u64
        ensures { result ≡ self.now.admitted }
    {
        self.admitted
    }

    /// Returns how many records the replay book keeps.
    pub fn kept(&self) -> u64
        ensures { result ≡ kept_by self.now.service }
    {
        match &self.service {
            Some(service) => service.gate().kept(),
            None => 0,
        }
    }

    /// Makes the service, if there is none yet and a line set the skew.
    fn make_service(&mut self, alloc: Global) -> Result<(), OutOfMemory>
        ensures begun { OnOk result (MatchOption self.new.service (CannotBegin self.old × (self.new ≡ self.old)) (BeginsService self.old)) }
        ensures lines { self.new.lines ≡ self.old.lines }
        ensures answered { self.new.answered ≡ self.old.answered }
        ensures admitted { self.new.admitted ≡ self.old.admitted }
    {
        if self.service.is_none() && self.script.has_begun() {
            let script = mem::replace(&mut self.script, Script::new(alloc));
            self.service = Some(service_of(alloc, script)?);
        }
        Ok(())
    }

    /// Counts one more reply.
    fn count(&mut self, reply: &Reply)
        requires answered { self.old.answered < 2 ^ 32 }
        requires admitted { self.old.admitted < 2 ^ 32 }
        ensures { self.new ≡ record self.old { answered = self.old.answered + 1; admitted = self.old.admitted + one_if_admits reply.now } }
    {
        self.answered += 1;
        if reply.admits_peer() {
            self.admitted += 1;
        }
    }

    /// Takes one event, and returns the line of the reply. Fails with `Bad` if there is no service and no line set the skew.
    fn answer(&mut self, alloc: Global, event: &Event) -> Result<String, FieldError>
        requires answered { self.old.answered < 2 ^ 32 }
        requires admitted { self.old.admitted < 2 ^ 32 }
        ensures turn { MatchResult result
            (λ text. Answers self.old event.now (string_bytes text) self.new)
            (λ e. e ≡ Bad → CannotBegin self.old × (self.new ≡ self.old)) }
        ensures err { OnErr result (self.new.answered ≡ self.old.answered) }
        ensures lines { self.new.lines ≡ self.old.lines }
        ensures few { self.new.answered ≤ self.old.answered + 1 }
        ensures modest { self.old.admitted ≤ self.old.answered → self.new.admitted ≤ self.new.answered }
    {
        self.make_service(alloc)?;
        let Some(service) = &mut self.service else {
            return Err(FieldError::Bad);
        };
        let reply = service.step(alloc, event)?;
        let text = reply.line(alloc)?;
        self.count(&reply);
        Ok(text)
    }

    /// Takes the declaration of one line before the first event. Fails with `Bad` after an event, or if its conditions do not hold.
    fn prepare(&mut self, alloc: Global, declaration: Declaration) -> Result<String, FieldError>
        ensures turn { MatchResult result
            (λ text. Prepares self.old declaration (string_bytes text) self.new)
            (λ e. e ≡ Bad → (prepare self.old declaration ≡ None) × (self.new ≡ self.old)) }
        ensures err { OnErr result (self.new ≡ self.old) }
        ensures lines { self.new.lines ≡ self.old.lines }
        ensures few { self.new.answered ≤ self.old.answered + 1 }
        ensures modest { self.old.admitted ≤ self.old.answered → self.new.admitted ≤ self.new.answered }
    {
        if self.service.is_some() {
            drop(declaration);
            Err(FieldError::Bad)
        } else {
            self.script.set_up(declaration)?;
            Ok(String::new(alloc))
        }
    }

    fn take_content(&mut self, alloc: Global, line: &[u8]) -> Result<String, FieldError>
        requires answered { self.old.answered < 2 ^ 32 }
        requires admitted { self.old.admitted < 2 ^ 32 }
        ensures turn { MatchResult result
            (λ text. TakesContent self.old line.now (string_bytes text) self.new)
            (λ e. e ≡ Bad → RefusesContent self.old line.now × (self.new ≡ self.old)) }
        ensures err { OnErr result (self.new.answered ≡ self.old.answered) }
        ensures lines { self.new.lines ≡ self.old.lines }
        ensures few { self.new.answered ≤ self.old.answered + 1 }
        ensures modest { self.old.admitted ≤ self.old.answered → self.new.admitted ≤ self.new.answered }
    {
        match parse_item(alloc, line)? {
            Item::Event(event) => self.answer(alloc, &event),
            Item::Declaration(declaration) => self.prepare(alloc, declaration),
        }
    }
}

impl LineTaker for Session {
    ghost use Rattle.krb_machine.specs.LineRules.{line_rules, IsModest};

    ghost rules = { line_rules };

    ghost is_ready = { IsModest };

    fn take_line(&mut self, alloc: Global, line: &[u8]) -> Result<String, LineError> {
        let text = if is_skipped(line) {
            String::new(alloc)
        } else {
            match self.take_content(alloc, line) {
                Ok(text) => text,
                Err(FieldError::Bad) => return Err(LineError::Bad),
                Err(FieldError::OutOfMemory) => return Err(LineError::OutOfMemory),
            }
        };
        self.lines += 1;
        Ok(text)
    }

    fn lines(&self) -> u64 {
        self.lines
    }

    /// Returns how many events were answered.
    fn answered(&self) -> u64 {
        self.answered
    }

    /// Returns whether there was a line with the skew.
    fn can_end(&self) -> bool {
        self.service.is_some() || self.script.has_begun()
    }

    fn end_line(&self) -> ArrayString<ROOM> {
        end_line(self.admitted(), self.kept())
    }
}
