//! The handle of a judged token, as C keeps it.

ghost use Rattle.std.specs.Prelude.{◌≡◌, Some, None, Option, option_map, is_none};
ghost use Rattle.std_heap.specs.contracts.GlobalAllocator.TheImpl.{ghosts};
ghost use Rattle.krb_c.specs.Places.{place_owns, count_of};
ghost use Rattle.krb_entrance.specs.declared.candidate.Candidate.{Candidate};
ghost use Rattle.krb_entrance.specs.contracts.candidate.Candidate.{the_row};

use super::parts::Parts;
use krb_entrance::Candidate;
use std::alloc::Global;
use std::marker::Model;
use std::mem::replace;
use std::ptr::null_mut;

/// The address of a judged token on the heap, if there is one.
#[repr(C)]
#[derive(Drop)]
pub struct JudgementPlace {
    at: *mut u8,
    alloc: Global,
    pub ghost value: { Option Candidate },
}

impl Model for JudgementPlace {
    ghost also_owns = { λ place. place_owns (ghosts.dealloc_token place.alloc) the_row place.at place.value };
}

unsafe impl Send for JudgementPlace {}

impl JudgementPlace {
    fn empty(alloc: Global) -> JudgementPlace
        ensures { result.value ≡ None }
    {
        JudgementPlace {
            at: null_mut(),
            alloc,
        }
    }

    fn of_parts(parts: Parts<Candidate, Global>) -> JudgementPlace
        ensures { result.value ≡ Some parts.value }
    {
        let Parts { at, alloc } = parts;
        JudgementPlace {
            at: at as *mut u8,
            alloc,
        }
    }

    fn into_parts(self) -> Parts<Candidate, Global>
        requires { (self.value ≡ None) → ⊥ }
        ensures { Some result.value ≡ self.value }
    {
        let JudgementPlace { at, alloc } = self;
        Parts {
            at: at as *mut Candidate,
            alloc,
        }
    }
}

/// A judged token that C keeps: how many there are, 0 or 1, and where it lies.
#[repr(C)]
pub struct Judgement {
    count: u64,
    pub place: JudgementPlace,
    ghost counted: { count ≡ count_of place.value },
}

impl Drop for Judgement {
    fn drop(self) {
        drop(self.into_box());
    }
}

impl Judgement {
    fn empty(alloc: Global) -> Judgement
        ensures { result.place.value ≡ None }
    {
        Judgement {
            count: 0,
            place: JudgementPlace::empty(alloc),
        }
    }

    fn of_box(state: Box<Candidate, Global>) -> Judgement
        ensures { result.place.value ≡ Some state.value }
    {
        Judgement {
            count: 1,
            place: JudgementPlace::of_parts(Parts::of(state)),
        }
    }

    fn into_box(self) -> Option<Box<Candidate, Global>>
        ensures { option_map (λ state. state.value) result ≡ self.place.value }
    {
        let Judgement { count, place } = self;
        if count == 0 {
            return None;
        }
        Some(place.into_parts().into_box())
    }

    /// Returns whether the handle is empty.
    pub fn is_empty(&self) -> bool
        ensures { result ≡ is_none self.now.place.value }
    {
        self.count == 0
    }

    /// Takes the value out, and leaves an empty handle.
    pub fn take(&mut self, alloc: Global) -> Option<Box<Candidate, Global>>
        ensures taken { option_map (λ state. state.value) result ≡ self.old.place.value }
        ensures left { self.new.place.value ≡ None }
    {
        replace(self, Judgement::empty(alloc)).into_box()
    }

    /// Puts a value in.
    pub fn put(&mut self, state: Box<Candidate, Global>)
        ensures { self.new.place.value ≡ Some state.value }
    {
        *self = Judgement::of_box(state);
    }
}
