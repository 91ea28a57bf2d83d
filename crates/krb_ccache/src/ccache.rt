//! A credential cache.

ghost use Rattle.std.specs.Prelude.{◌≡◌, ◌++◌, ◌∷◌, [], true, IfOk, IfErr, IfSome, None, OnOk, OnErr, option_copied};
ghost use Rattle.krb_ccache.specs.declared.header.TimeOffset.{TimeOffset};
ghost use Rattle.krb_ccache.specs.Format.{written, Spells, IsFault};
ghost use Rattle.krb_ccache.specs.Finding.{found, found_tgt, found_or_tgt};
ghost use Rattle.krb_ccache.specs.Options.{option_value};
ghost use Rattle.krb_ccache.specs.Header.{HasOffset};
ghost use Rattle.krb_ccache.specs.Writing.{can_be_written};

use crate::credential::Credential;
use crate::error::CcacheError;
use crate::find::{Service, Wanted, longest};
use crate::header::{TimeOffset, find_offset};
use crate::options::{WantedOption, first_option};
use crate::principal::CcachePrincipal;
use crate::read::read_file;
use crate::write::{can_be_written, write_file};
use krb_der::{Items, Octets, OutOfMemory};
use std::alloc::Global;
use std::mem;

/// A version of the format.
#[derive(Drop)]
pub enum Version {
    /// 0503, which Java writes.
    Three,
    /// 0504, which MIT krb5 and Heimdal write, with the octets of its header.
    Four(Octets),
}

/// The contents of a credential cache, in the order of the file.
#[derive(Drop)]
pub struct Ccache {
    pub version: Version,
    /// Whose cache it is.
    pub principal: CcachePrincipal,
    /// Tickets, options of the cache and removed entries.
    pub credentials: Items<Credential>,
}

impl Ccache {
    /// Reads a file of the format 0503 or 0504. Fails with the first fault from the front.
    pub fn read(alloc: Global, octets: &[u8]) -> Result<Ccache, CcacheError>
        ensures found { IfOk result (λ cache. Spells cache octets.now) }
        ensures refused { IfErr result (λ error. IsFault error octets.now) }
    {
        read_file(alloc, octets)
    }

    /// Returns whether the cache can be written: each length and number of elements is below 2^32, and the header's length below 2^16.
    pub fn is_writable(&self) -> bool
        ensures { result ≡ can_be_written self.now }
    {
        can_be_written(self)
    }

    /// Returns the cache as a file.
    pub fn write(&self, alloc: Global) -> Result<Octets, OutOfMemory>
        requires { can_be_written self.now ≡ true }
        ensures { IfOk result (λ octets. octets ≡ written self.now) }
    {
        write_file(alloc, self)
    }

    /// Adds an entry after the last one. If memory runs out the cache is unchanged.
    pub fn push(&mut self, alloc: Global, credential: Credential) -> Result<(), OutOfMemory>
        ensures pushed { OnOk result (self.new ≡ record self.old { credentials = self.old.credentials ++ credential ∷ [] }) }
        ensures stays { OnErr result (self.new ≡ self.old) }
    {
        let none = Items::new(Vec::new(alloc));
        let mut credentials = mem::replace(&mut self.credentials, none).into_inner();
        let is_pushed = credentials.push(credential).is_ok();
        self.credentials = Items::new(credentials);
        if is_pushed { Ok(()) } else { Err(OutOfMemory) }
    }

    /// The ticket that the cache's own principal can show by itself to a service of these components in this second since 1970,
    /// in whichever realm the service is: it is no option and not sealed under a session key, it is valid and its key is one of
    /// AES-256 or AES-128. Of several it is the one that is valid for longest, of equals the last.
    pub fn find(&self, components: &Items<Octets>, seconds: u32) -> Option<&Credential>
        ensures { option_copied result ≡ found self.now.principal self.now.credentials components.now seconds }
    {
        longest(
            self.credentials.as_slice(),
            &Wanted {
                client: &self.principal,
                service: Service::Named(components),
                seconds,
            },
        )
    }

    /// The ticket for the ticket-granting service of the principal's own realm, chosen as `find` chooses.
    pub fn find_tgt(&self, seconds: u32) -> Option<&Credential>
        ensures { option_copied result ≡ found_tgt self.now.principal self.now.credentials seconds }
    {
        longest(
            self.credentials.as_slice(),
            &Wanted {
                client: &self.principal,
                service: Service::Granting(&self.principal.realm),
                seconds,
            },
        )
    }

    /// The service's own ticket, as `find` gives it, or otherwise that of `find_tgt`, with which the KDC can be asked for one.
    pub fn find_or_tgt(&self, components: &Items<Octets>, seconds: u32) -> Option<&Credential>
        ensures { option_copied result ≡ found_or_tgt self.now.principal self.now.credentials components.now seconds }
    {
        match self.find(components, seconds) {
            Some(credential) => Some(credential),
            None => self.find_tgt(seconds),
        }
    }

    /// The value of an option of the cache: of this name, and of this principal or of the cache as a whole. A principal is written as
    /// text, as `krbtgt/EXAMPLE.COM@EXAMPLE.COM`. Of several entries it is the first.
    pub fn option(&self, name: &[u8], principal: Option<&[u8]>) -> Option<&Octets>
        ensures { option_copied result ≡ option_value self.now.principal self.now.credentials name.now (option_copied principal.entry) }
    {
        let wanted = WantedOption {
            client: &self.principal,
            name,
            principal,
        };
        match first_option(self.credentials.as_slice(), &wanted) {
            None => None,
            Some(credential) => Some(&credential.ticket),
        }
    }

    /// How far the clock of the KDC was ahead of the client's when the cache was made. None if the format is 0503, or if the header
    /// has no field of tag 1 or its first one has not eight bytes.
    pub fn time_offset(&self) -> Option<TimeOffset>
        ensures told { IfSome result (λ offset. HasOffset self.now.version offset) }
        ensures none { result ≡ None → (offset : TimeOffset) → HasOffset self.now.version offset → ⊥ }
    {
        match &self.version {
            Version::Three => None,
            Version::Four(header) => find_offset(header.as_slice()),
        }
    }
}
