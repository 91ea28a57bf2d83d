//! The declarations of the lines before the first event.
ghost use Rattle.std.specs.Prelude.{◌≡◌};

use crate::declaration::Declaration;
use crate::endpoint::{Attribute, Endpoint};
use crate::fields::FieldError;
use krb_conf::{ConfigFile, Env};
use krb_der::{Items, Text};
use std::alloc::Global;
use std::collections::BTreeMap;
use std::marker::Model;

/// The declarations so far: the skew, variables and files in their order, and the ends of connections by their numbers.
#[derive(Drop)]
pub struct Script {
    skew: Option<u32>,
    vars: Vec<(Text, Text)>,
    files: Vec<(Text, ConfigFile)>,
    endpoints: BTreeMap<u32, Endpoint>,
}

impl Model for Script {
    ghost use Rattle.krb_script.specs.Script.{Setup};

    ghost Value = { Setup };

    ghost view = { λ s. record { skew = s.skew; env = record { vars = s.vars.items; files = s.files.items }; endpoints = s.endpoints.entries } };
}

impl Script {
    ghost use Rattle.std.specs.Prelude.{◌≡◌, OnErr, is_some, unwrap_or};
    ghost use Rattle.krb_script.specs.Script.{empty_setup, set_up, add, with_endpoint, with_addition, is_declared};
    ghost use Rattle.krb_script.specs.Gives.{GivesAfter};

    /// Returns a script in which nothing is declared. It allocates no memory yet.
    pub fn new(alloc: Global) -> Script
        ensures { result ≡ empty_setup }
    {
        Script {
            skew: None,
            vars: Vec::new(alloc),
            files: Vec::new(alloc),
            endpoints: BTreeMap::new(alloc),
        }
    }

    /// Returns whether there was a line with the skew.
    pub fn has_begun(&self) -> bool
        ensures { result ≡ is_some self.now.skew }
    {
        self.skew.is_some()
    }

    /// Returns the skew in seconds, which is 0 if no line sets it, the variables and files, and the ends of connections by their
    /// numbers.
    pub fn into_parts(self) -> (u32, Env, BTreeMap<u32, Endpoint>)
        ensures skew { result.0 ≡ unwrap_or self.skew 0 }
        ensures env { result.1 ≡ self.env }
        ensures endpoints { result.2.entries ≡ self.endpoints }
    {
        let Script {
            skew,
            vars,
            files,
            endpoints,
        } = self;
        let env = Env {
            vars: Items::new(vars),
            files: Items::new(files),
        };
        (skew.unwrap_or(0), env, endpoints)
    }

    fn is_declared(&self, id: u32) -> bool
        ensures { result ≡ is_declared id self.now.endpoints }
    {
        self.endpoints.contains_key(&id)
    }

    /// Adds one end. Fails with `Bad` if its number is not new.
    fn add_endpoint(&mut self, id: u32, endpoint: Endpoint) -> Result<(), FieldError>
        ensures given { GivesAfter (with_endpoint self.old id endpoint) result self.new }
        ensures err { OnErr result (self.new ≡ self.old) }
    {
        if self.is_declared(id) {
            return Err(FieldError::Bad);
        }
        self.endpoints.insert(id, endpoint)?;
        Ok(())
    }

    /// Adds an attribute to an end. Fails with `Bad` if no end with the number is declared, or if the end cannot have the attribute.
    fn add_to(&mut self, id: u32, attribute: Attribute) -> Result<(), FieldError>
        ensures given { GivesAfter (with_addition self.old id attribute) result self.new }
        ensures err { OnErr result (self.new ≡ self.old) }
    {
        let Some(endpoint) = self.endpoints.get_mut(&id) else {
            return Err(FieldError::Bad);
        };
        endpoint.add(attribute)
    }

    /// Adds the declaration of one line after that of the skew. Fails with `Bad` for another skew.
    fn add(&mut self, declaration: Declaration) -> Result<(), FieldError>
        ensures given { GivesAfter (add self.old declaration) result self.new }
        ensures err { OnErr result (self.new ≡ self.old) }
    {
        match declaration {
            Declaration::Skew(_) => return Err(FieldError::Bad),
            Declaration::Variable(name, value) => self.vars.push((name, value))?,
            Declaration::File(path, contents) => self.files.push((path, contents))?,
            Declaration::Endpoint(id, endpoint) => self.add_endpoint(id, endpoint)?,
            Declaration::Attribute(id, attribute) => self.add_to(id, attribute)?,
        }
        Ok(())
    }

    /// Adds the declaration of one more line before the first event. Fails with `Bad` if its conditions do not hold. After an error
    /// the script is as it was.
    pub fn set_up(&mut self, declaration: Declaration) -> Result<(), FieldError>
        ensures given { GivesAfter (set_up self.old declaration) result self.new }
        ensures err { OnErr result (self.new ≡ self.old) }
    {
        if self.has_begun() {
            return self.add(declaration);
        }
        let Declaration::Skew(seconds) = declaration else {
            return Err(FieldError::Bad);
        };
        self.skew = Some(seconds);
        Ok(())
    }
}
