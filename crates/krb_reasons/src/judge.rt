//! The lines of an input, one after another.

ghost use Rattle.std.specs.Prelude.{◌≡◌, not, is_some, Some, IfSome};
ghost use Rattle.krb_reasons.specs.Shapes.{reason_of};
ghost use Rattle.krb_reasons.specs.Judged.{needed, attribute_conflict, conflict, conflict_in};
ghost use Rattle.krb_reasons.specs.declared.reason.Reason.{Reason};
ghost use Rattle.krb_reasons.specs.declared.reason.Reason.TheVariants as reasons;
ghost use Rattle.krb_reasons.specs.declared.judge.Complaint.TheVariants.{Bad};

use crate::reason::Reason;
use crate::shapes::reason_of;
use krb_script::{Attribute, Declaration, Event, FieldError, Item, Script, parse_item};
use krb_text::is_skipped;
use std::alloc::{AllocError, Global};
use std::marker::Model;
use std::mem;

/// The reason why a line is not taken.
#[derive(Clone, Copy, Debug, PartialEq, Eq)]
pub enum Complaint {
    Bad(Reason),
    OutOfMemory,
}

impl From<AllocError> for Complaint {
    ghost use Rattle.std.specs.Prelude.{◌≡◌};
    ghost use Rattle.krb_reasons.specs.declared.judge.Complaint.TheVariants.{OutOfMemory as NoMemory};

    ghost from_gives = { λ _ e. e ≡ NoMemory };

    fn from(_: AllocError) -> Self {
        Complaint::OutOfMemory
    }
}

/// Returns the connection that a declaration adds to.
fn needed(declaration: &Declaration) -> Option<u32>
    ensures { result ≡ needed declaration.now }
{
    match declaration {
        Declaration::Attribute(id, _) => Some(*id),
        _ => None,
    }
}

/// Returns the reason why an attribute is not taken although its connection is declared.
fn attribute_conflict(id: u32, attribute: &Attribute) -> Reason
    ensures { result ≡ attribute_conflict id attribute.now }
{
    match attribute {
        Attribute::Key(_) => Reason::KeyOfInitiator { id },
        Attribute::Credentials(_) => Reason::SecondCredentials { id },
        Attribute::Kdc(_) => Reason::SecondKdc { id },
    }
}

/// Returns the reason why a declaration is not taken after the skew, if the connection that it adds to is declared.
fn conflict(declaration: &Declaration) -> Reason
    ensures { result ≡ conflict declaration.now }
{
    match declaration {
        Declaration::Endpoint(id, _) => Reason::DeclaredTwice { id: *id },
        Declaration::Attribute(id, attribute) => attribute_conflict(*id, attribute),
        _ => Reason::SecondSkew,
    }
}

/// Returns the reason, or `NotDeclared` if the connection is not declared.
fn conflict_in(script: Script, needed: Option<u32>, reason: Reason) -> Reason
    ensures { result ≡ conflict_in script needed reason }
{
    let (_, _, endpoints) = script.into_parts();
    match needed {
        Some(id) if !endpoints.contains_key(&id) => Reason::NotDeclared { id },
        _ => reason,
    }
}

/// The declarations of the lines so far, and whether an event is among them.
#[derive(Drop)]
pub struct Judge {
    script: Script,
    has_events: bool,
}

impl Model for Judge {
    ghost use Rattle.krb_reasons.specs.Judged.{Judged};

    ghost Value = { Judged };

    ghost view = { λ j. record { setup = j.script; has_events = j.has_events } };
}

impl Judge {
    ghost use Rattle.krb_script.specs.declared.item.Item.TheVariants.{Declaration as DeclarationItem, Event as EventItem};
    ghost use Rattle.krb_reasons.specs.Judged.{nothing_judged, step, after, refusal, why, TakesLine};

    /// Returns a judge that has taken no line.
    pub fn new(alloc: Global) -> Judge
        ensures { result ≡ nothing_judged }
    {
        Judge {
            script: Script::new(alloc),
            has_events: false,
        }
    }

    /// Returns the reason why the input may not end here, if there is one: no line set the skew.
    pub fn missing(&self) -> Option<Reason>
        ensures missing { is_some result ≡ not (is_some self.now.setup.skew) }
        ensures reason { IfSome result (λ reason. reason ≡ reasons.NoSkew) }
    {
        if self.script.has_begun() {
            None
        } else {
            Some(Reason::NoSkew)
        }
    }

    fn take_event(&mut self, event: Event) -> Result<(), Complaint>
        ensures { TakesLine (step self.old (EventItem event)) (Some (refusal self.old (EventItem event))) result self.new }
    {
        drop(event);
        if !self.script.has_begun() {
            return Err(Complaint::Bad(Reason::NoSkew));
        }
        self.has_events = true;
        Ok(())
    }

    fn declare(&mut self, alloc: Global, declaration: Declaration) -> Result<(), Complaint>
        ensures { TakesLine (step self.old (DeclarationItem declaration)) (Some (refusal self.old (DeclarationItem declaration))) result self.new }
    {
        if self.has_events {
            drop(declaration);
            return Err(Complaint::Bad(Reason::AfterEvent));
        }
        let has_begun = self.script.has_begun();
        let (connection, reason) = (needed(&declaration), conflict(&declaration));
        match self.script.set_up(declaration) {
            Ok(()) => Ok(()),
            Err(FieldError::OutOfMemory) => Err(Complaint::OutOfMemory),
            Err(FieldError::Bad) if !has_begun => Err(Complaint::Bad(Reason::NoSkew)),
            Err(FieldError::Bad) => {
                let script = mem::replace(&mut self.script, Script::new(alloc));
                Err(Complaint::Bad(conflict_in(script, connection, reason)))
            }
        }
    }

    /// Takes one more line, or fails with the reason why it is bad. No other line is to be taken after a bad line.
    pub fn take(&mut self, alloc: Global, line: &[u8]) -> Result<(), Complaint>
        ensures { TakesLine (after self.old line.now) (why self.old line.now) result self.new }
    {
        if is_skipped(line) {
            return Ok(());
        }
        match parse_item(alloc, line) {
            Ok(Item::Event(event)) => self.take_event(event),
            Ok(Item::Declaration(declaration)) => self.declare(alloc, declaration),
            Err(FieldError::OutOfMemory) => Err(Complaint::OutOfMemory),
            Err(FieldError::Bad) => Err(refused(alloc, line)),
        }
    }
}

/// Returns the reason why a line is not in the table.
fn refused(alloc: Global, line: &[u8]) -> Complaint
    ensures { (reason : Reason) → result ≡ Bad reason → reason_of line.now ≡ Some reason }
{
    match reason_of(alloc, line) {
        Ok(Some(reason)) => Complaint::Bad(reason),
        Ok(None) | Err(_) => Complaint::OutOfMemory,
    }
}
