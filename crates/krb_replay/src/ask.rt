//! The question to a replay gate, and the gate's verdict.

ghost use Rattle.krb_replay.specs.Verdicts.{verdict_text};
ghost use Rattle.std.specs.Prelude.{Some};

use crate::record::Record;
use krb_der::{OutOfMemory, Time, TryCopy};
use krb_messages::PrincipalName;
use std::alloc::Global;
use std::fmt;

/// A question to a replay gate: may this authenticator be admitted now?
#[derive(PartialEq, Eq, Drop)]
pub struct Ask {
    /// The record that is remembered if the answer is yes.
    pub entry: Record,
    /// The service's name, as in the clear part of the ticket.
    pub sname: PrincipalName,
    /// When the ticket's life starts: its starttime, or else its authtime (RFC 4120 5.3).
    pub start: Time,
    /// When the ticket's life ends (endtime).
    pub end: Time,
    /// The moment of the question, in microseconds since 1970-01-01T00:00:00Z.
    pub moment: u64,
}

impl TryCopy for Ask {
    fn copy(&self, alloc: Global) -> Result<Ask, OutOfMemory> {
        Ok(Ask {
            entry: self.entry.copy(alloc)?,
            sname: self.sname.copy(alloc)?,
            start: self.start,
            end: self.end,
            moment: self.moment,
        })
    }
}

/// A replay gate's answer. Where several of these hold, it is the first in the order Skew, NotYet, Expired, Replayed.
#[derive(Clone, Copy, Debug, PartialEq, Eq, Hash)]
pub enum Verdict {
    /// The authenticator is new, and is remembered from now on.
    Admitted,
    /// The authenticator's time is too far from the acceptor's (KRB_AP_ERR_SKEW).
    Skew,
    /// The ticket's life has not begun (KRB_AP_ERR_TKT_NYV).
    NotYet,
    /// The ticket's life is over (KRB_AP_ERR_TKT_EXPIRED).
    Expired,
    /// An equal record was admitted before (KRB_AP_ERR_REPEAT).
    Replayed,
}

/// Writes the variant's name.
impl fmt::Display for Verdict {
    ghost output = { λ verdict. Some (verdict_text verdict) };

    fn fmt<W: fmt::Write>(&self, f: &mut fmt::Formatter<W>) -> fmt::Result {
        f.write_str(match self {
            Verdict::Admitted => "Admitted",
            Verdict::Skew => "Skew",
            Verdict::NotYet => "NotYet",
            Verdict::Expired => "Expired",
            Verdict::Replayed => "Replayed",
        })
    }
}
