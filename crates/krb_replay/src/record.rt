//! The record that is remembered of an authenticator.

ghost use Rattle.std.specs.Prelude.{◌≡◌, IfOk};

use krb_der::{Name, Octets, OutOfMemory, Time, TryCopy};
use krb_messages::PrincipalName;
use std::alloc::Global;

/// The parts that two uses of one authenticator have in common (RFC 4120, section 3.2.3): its time, its client, and its tag if
/// records have one. Two are equal if all five fields are. The order is by time first, then by the other fields in their order here.
#[derive(PartialEq, Eq, PartialOrd, Ord, Hash, Drop)]
pub struct Record {
    /// The client's time, in whole seconds (RFC 4120 5.5.1, ctime).
    pub ctime: Time,
    /// The octets of the INTEGER that counts its microseconds (cusec), as they were sent.
    pub cusec: Octets,
    /// The client's realm (crealm).
    pub realm: Name,
    /// The client's name (cname).
    pub name: PrincipalName,
    /// The tag at the end of the sealed authenticator, which two log-ins of one client in one microsecond do not share; no octets
    /// where records have none.
    pub tag: Octets,
}

impl TryCopy for Record {
    fn copy(&self, alloc: Global) -> Result<Record, OutOfMemory> {
        Ok(Record {
            ctime: self.ctime,
            cusec: self.cusec.copy(alloc)?,
            realm: self.realm.copy(alloc)?,
            name: self.name.copy(alloc)?,
            tag: self.tag.copy(alloc)?,
        })
    }
}
