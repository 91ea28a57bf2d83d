//! The draws of each step. A program of yours reads its clock here, and asks the system for random bytes.

ghost use Rattle.std.specs.Prelude.{◌≡◌, true, IfSome};
ghost use Rattle.sspi_generator.specs.Draws.{IsInRange, AreInRange};

use anyhow::Result;
use krb_client::{Draw, MAX_MOMENT};
use std::alloc::Global;
use std::mem;

/// The draws of a log-in: for its first step, and for each reply of a KDC.
#[derive(Clone, Copy)]
pub struct Draws<'a> {
    pub first: &'a Draw,
    pub replies: &'a [Draw],
}

/// Draws for steps that are not taken yet.
#[derive(Drop)]
pub struct Steps {
    alloc: Global,
    draws: Vec<Draw>,
}

fn is_in_range(draw: &Draw) -> bool
    ensures { result ≡ true → IsInRange draw.now }
{
    draw.moment <= MAX_MOMENT
}

impl Steps {
    pub fn new(alloc: Global) -> Steps {
        Steps {
            alloc,
            draws: Vec::new(alloc),
        }
    }

    /// Adds one more step, at a moment in microseconds since 1970-01-01T00:00:00Z, with 64 random bytes in hex.
    pub fn add(&mut self, moment: u64, random: &str) -> Result<()> {
        let mut draw = Draw {
            moment,
            random: [0; 64],
        };
        hex::decode_to_slice(random.as_bytes(), &mut draw.random)?;
        self.draws.push(draw)?;
        Ok(())
    }

    /// Takes all steps, for a run that begins: none is used twice.
    pub fn take(&mut self) -> Steps {
        let empty = Steps::new(self.alloc);
        mem::replace(self, empty)
    }

    /// Returns the draws of a log-in: None if there are none.
    pub fn for_login(&self) -> Option<Draws<'_>> {
        match self.draws.as_slice() {
            [first, replies @ ..] => Some(Draws { first, replies }),
            [] => None,
        }
    }

    /// Returns a draw for each step of a change of a password.
    pub fn for_change(&self) -> Option<[Draw; 4]>
        ensures in_range { IfSome result (λ draws. AreInRange draws) }
    {
        match self.draws.as_slice() {
            [first, second, third, fourth, ..]
                if is_in_range(first)
                    && is_in_range(second)
                    && is_in_range(third)
                    && is_in_range(fourth) => { Some([*first, *second, *third, *fourth]) }
            _ => None,
        }
    }
}
