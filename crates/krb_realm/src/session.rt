//! A session: it takes one line after another, and answers each request as it comes.

use crate::item::{Entry, Item, RealmLine, Request, parse_item};
use crate::realm::Realm;
use arrayvec::ArrayString;
use krb_lines::{LineError, LineTaker, ROOM, numbered_line};
use krb_script::FieldError;
use krb_text::is_skipped;
use std::alloc::Global;
use std::marker::Model;

/// The realm, once a line named it, and how many lines were taken and requests answered.
#[derive(Drop)]
pub struct Session {
    realm: Option<Realm>,
    lines: u64,
    answered: u64,
}

impl Model for Session {
    ghost use Rattle.krb_realm.specs.Progress.{Progress};

    ghost Value = { Progress };

    ghost view = { λ s. record { realm = s.realm; lines = s.lines; answered = s.answered } };
}

impl Session {
    ghost use Rattle.std.specs.Prelude.{◌≡◌, ◌<◌, ◌≤◌, ◌^◌, ◌+◌, OnErr, MatchResult, string_bytes};
    ghost use Rattle.krb_script.specs.declared.fields.FieldError.TheVariants.{Bad};
    ghost use Rattle.krb_realm.specs.Progress.{new_progress, TakesItem, RefusesItem, TakesContent, RefusesContent};
    ghost use Rattle.krb_realm.specs.declared.item.Item.TheVariants as items;

    pub fn new() -> Session
        ensures { result ≡ new_progress }
    {
        Session {
            realm: None,
            lines: 0,
            answered: 0,
        }
    }

    /// The line that names the realm.
    fn begin(&mut self, alloc: Global, line: RealmLine) -> Result<String, FieldError>
        ensures turn { MatchResult result
            (λ text. TakesItem self.old (items.Realm line) (string_bytes text) self.new)
            (λ e. e ≡ Bad → RefusesItem self.old (items.Realm line)) }
        ensures err { OnErr result (self.new.answered ≡ self.old.answered) }
        ensures lines { self.new.lines ≡ self.old.lines }
        ensures few { self.new.answered ≤ self.old.answered + 1 }
    {
        if self.realm.is_some() {
            return Err(FieldError::Bad);
        }
        self.realm = Some(Realm::new(alloc, line)?);
        Ok(String::new(alloc))
    }

    /// A line that adds something to it.
    fn enter(&mut self, alloc: Global, entry: Entry) -> Result<String, FieldError>
        ensures turn { MatchResult result
            (λ text. TakesItem self.old (items.Entry entry) (string_bytes text) self.new)
            (λ e. e ≡ Bad → RefusesItem self.old (items.Entry entry)) }
        ensures err { OnErr result (self.new.answered ≡ self.old.answered) }
        ensures lines { self.new.lines ≡ self.old.lines }
        ensures few { self.new.answered ≤ self.old.answered + 1 }
    {
        let Some(realm) = &mut self.realm else {
            return Err(FieldError::Bad);
        };
        realm.add(alloc, entry)?;
        Ok(String::new(alloc))
    }

    /// A request, and the line of its reply.
    fn answer(&mut self, alloc: Global, request: &Request) -> Result<String, FieldError>
        requires { self.old.answered < 2 ^ 32 }
        ensures turn { MatchResult result
            (λ text. TakesItem self.old (items.Request request.now) (string_bytes text) self.new)
            (λ e. e ≡ Bad → RefusesItem self.old (items.Request request.now)) }
        ensures err { OnErr result (self.new.answered ≡ self.old.answered) }
        ensures lines { self.new.lines ≡ self.old.lines }
        ensures few { self.new.answered ≤ self.old.answered + 1 }
    {
        let Some(realm) = &self.realm else {
            return Err(FieldError::Bad);
        };
        let text = realm.answer(alloc, request)?;
        self.answered += 1;
        Ok(text)
    }

    fn take_content(&mut self, alloc: Global, line: &[u8]) -> Result<String, FieldError>
        requires { self.old.answered < 2 ^ 32 }
        ensures turn { MatchResult result
            (λ text. TakesContent self.old line.now (string_bytes text) self.new)
            (λ e. e ≡ Bad → RefusesContent self.old line.now) }
        ensures err { OnErr result (self.new.answered ≡ self.old.answered) }
        ensures lines { self.new.lines ≡ self.old.lines }
        ensures few { self.new.answered ≤ self.old.answered + 1 }
    {
        match parse_item(alloc, line)? {
            Item::Realm(first) => self.begin(alloc, first),
            Item::Entry(entry) => self.enter(alloc, entry),
            Item::Request(request) => self.answer(alloc, &request),
        }
    }
}

impl LineTaker for Session {
    ghost use Rattle.std.specs.Prelude.{◌≤◌};
    ghost use Rattle.krb_realm.specs.Answering.{line_rules};

    ghost rules = { line_rules };

    ghost is_ready = { λ progress. progress.answered ≤ progress.lines };

    fn take_line(&mut self, alloc: Global, line: &[u8]) -> Result<String, LineError> {
        let text = if is_skipped(line) {
            String::new(alloc)
        } else {
            match self.take_content(alloc, line) {
                Ok(text) => text,
                Err(FieldError::Bad) => return Err(LineError::Bad),
                Err(FieldError::OutOfMemory) => return Err(LineError::OutOfMemory),
            }
        };
        self.lines += 1;
        Ok(text)
    }

    fn lines(&self) -> u64 {
        self.lines
    }

    /// How many requests were answered.
    fn answered(&self) -> u64 {
        self.answered
    }

    /// Returns whether a line named the realm.
    fn can_end(&self) -> bool {
        self.realm.is_some()
    }

    fn end_line(&self) -> ArrayString<ROOM> {
        numbered_line("end ", self.answered)
    }
}
