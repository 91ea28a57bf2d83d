//! The declarations of the lines of an input.

use crate::ahead::HeldItem;
use krb_script::{Declaration, Event, FieldError, Item, Script, parse_item};
use krb_text::is_skipped;
use std::alloc::Global;
use std::marker::Model;

/// The declarations of the lines so far, and the number of these lines.
#[derive(Drop)]
pub struct Known {
    pub script: Script,
    pub events: Vec<Event>,
    lines: u64,
}

impl Model for Known {
    ghost use Rattle.krb_input.specs.Known.{Known};

    ghost Value = { Known };

    ghost view = { λ k. record { so_far = record { setup = k.script; events = k.events.items }; lines = k.lines } };
}

impl Known {
    ghost use Rattle.std.specs.Prelude.{◌≡◌, ◌<◌, ◌^◌, ◌+◌, is_some, OnOk, OnErr};
    ghost use Rattle.krb_script.specs.Gives.{GivesAfter};
    ghost use Rattle.krb_script.specs.Script.{set_up_before, declare, declare_line};
    ghost use Rattle.krb_script.specs.declared.item.Item.TheVariants.{Event as EventItem};
    ghost use Rattle.krb_input.specs.Known.{nothing_known, declare_content};
    ghost use Rattle.krb_input.specs.Ahead.{Declares};

    pub fn new(alloc: Global) -> Known
        ensures { result ≡ nothing_known }
    {
        Known {
            script: Script::new(alloc),
            events: Vec::new(alloc),
            lines: 0,
        }
    }

    /// Returns how many lines were taken.
    pub fn lines(&self) -> u64
        ensures { result ≡ self.now.lines }
    {
        self.lines
    }

    /// Returns whether there was a line with the skew.
    pub fn has_begun(&self) -> bool
        ensures { result ≡ is_some self.now.so_far.setup.skew }
    {
        self.script.has_begun()
    }

    /// Adds one event. Fails with `Bad` if there was no line with the skew.
    fn add(&mut self, event: Event) -> Result<(), FieldError>
        ensures given { GivesAfter (declare self.old.so_far (EventItem event)) result self.new.so_far }
        ensures err { OnErr result (self.new ≡ self.old) }
        ensures lines { self.new.lines ≡ self.old.lines }
    {
        if self.script.has_begun() {
            self.events.push(event)?;
            Ok(())
        } else {
            drop(event);
            Err(FieldError::Bad)
        }
    }

    /// Adds the declaration of a line before the first event. Fails with `Bad` after an event.
    fn set_up(&mut self, declaration: Declaration) -> Result<(), FieldError>
        ensures given { GivesAfter (set_up_before self.old.so_far.events self.old.so_far.setup declaration) result self.new.so_far }
        ensures err { OnErr result (self.new ≡ self.old) }
        ensures lines { self.new.lines ≡ self.old.lines }
    {
        if self.events.is_empty() {
            self.script.set_up(declaration)
        } else {
            drop(declaration);
            Err(FieldError::Bad)
        }
    }

    fn declare(&mut self, item: Item) -> Result<(), FieldError>
        ensures given { GivesAfter (declare self.old.so_far item) result self.new.so_far }
        ensures err { OnErr result (self.new ≡ self.old) }
        ensures lines { self.new.lines ≡ self.old.lines }
    {
        match item {
            Item::Event(event) => self.add(event),
            Item::Declaration(declaration) => self.set_up(declaration),
        }
    }

    /// Takes a line that is not skipped, and reads it if it was not read ahead.
    fn take_content(
        &mut self,
        alloc: Global,
        line: &[u8],
        ahead: Option<HeldItem>,
    ) -> Result<(), FieldError>
        requires { Declares line.now ahead }
        ensures given { GivesAfter (declare_content self.old.so_far line.now) result self.new.so_far }
        ensures err { OnErr result (self.new ≡ self.old) }
        ensures lines { self.new.lines ≡ self.old.lines }
    {
        match ahead {
            Some(held) => self.declare(held.into_item()),
            None => self.declare(parse_item(alloc, line)?),
        }
    }

    /// Takes one more line, with the item that was read of it ahead, if any. After an error nothing is taken.
    pub fn take_line(
        &mut self,
        alloc: Global,
        line: &[u8],
        ahead: Option<HeldItem>,
    ) -> Result<(), FieldError>
        requires lines { self.old.lines < 2 ^ 32 }
        requires ahead { Declares line.now ahead }
        ensures given { GivesAfter (declare_line self.old.so_far line.now) result self.new.so_far }
        ensures err { OnErr result (self.new ≡ self.old) }
        ensures lines { OnOk result (self.new.lines ≡ self.old.lines + 1) }
    {
        if !is_skipped(line) {
            self.take_content(alloc, line, ahead)?;
        }
        self.lines += 1;
        Ok(())
    }
}
