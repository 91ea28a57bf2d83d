//! The handle of an end with a security layer, as C keeps it.

ghost use Rattle.std.specs.Prelude.{◌≡◌, Some, None, Option, option_map, is_none};
ghost use Rattle.std_heap.specs.contracts.GlobalAllocator.TheImpl.{ghosts};
ghost use Rattle.krb_c.specs.Places.{place_owns, count_of};
ghost use Rattle.krb_c.specs.declared.sasl_end.SaslEnd.{SaslEnd};
ghost use Rattle.krb_c.specs.contracts.sasl_end.SaslEnd.{the_row};

use super::parts::Parts;
use crate::sasl_end::SaslEnd;
use std::alloc::Global;
use std::marker::Model;
use std::mem::replace;
use std::ptr::null_mut;

/// The address of an end on the heap, if there is one.
#[repr(C)]
#[derive(Drop)]
pub struct SaslPlace {
    at: *mut u8,
    alloc: Global,
    pub ghost value: { Option SaslEnd },
}

impl Model for SaslPlace {
    ghost also_owns = { λ place. place_owns (ghosts.dealloc_token place.alloc) the_row place.at place.value };
}

unsafe impl Send for SaslPlace {}

impl SaslPlace {
    fn empty(alloc: Global) -> SaslPlace
        ensures { result.value ≡ None }
    {
        SaslPlace {
            at: null_mut(),
            alloc,
        }
    }

    fn of_parts(parts: Parts<SaslEnd, Global>) -> SaslPlace
        ensures { result.value ≡ Some parts.value }
    {
        let Parts { at, alloc } = parts;
        SaslPlace {
            at: at as *mut u8,
            alloc,
        }
    }

    fn into_parts(self) -> Parts<SaslEnd, Global>
        requires { (self.value ≡ None) → ⊥ }
        ensures { Some result.value ≡ self.value }
    {
        let SaslPlace { at, alloc } = self;
        Parts {
            at: at as *mut SaslEnd,
            alloc,
        }
    }
}

/// An end that C keeps: how many there are, 0 or 1, and where it lies.
#[repr(C)]
pub struct Sasl {
    count: u64,
    pub place: SaslPlace,
    ghost counted: { count ≡ count_of place.value },
}

impl Drop for Sasl {
    fn drop(self) {
        drop(self.into_box());
    }
}

impl Sasl {
    fn empty(alloc: Global) -> Sasl
        ensures { result.place.value ≡ None }
    {
        Sasl {
            count: 0,
            place: SaslPlace::empty(alloc),
        }
    }

    fn of_box(state: Box<SaslEnd, Global>) -> Sasl
        ensures { result.place.value ≡ Some state.value }
    {
        Sasl {
            count: 1,
            place: SaslPlace::of_parts(Parts::of(state)),
        }
    }

    fn into_box(self) -> Option<Box<SaslEnd, Global>>
        ensures { option_map (λ state. state.value) result ≡ self.place.value }
    {
        let Sasl { count, place } = self;
        if count == 0 {
            return None;
        }
        Some(place.into_parts().into_box())
    }

    /// Returns whether the handle is empty.
    pub fn is_empty(&self) -> bool
        ensures { result ≡ is_none self.now.place.value }
    {
        self.count == 0
    }

    /// Takes the value out, and leaves an empty handle.
    pub fn take(&mut self, alloc: Global) -> Option<Box<SaslEnd, Global>>
        ensures taken { option_map (λ state. state.value) result ≡ self.old.place.value }
        ensures left { self.new.place.value ≡ None }
    {
        replace(self, Sasl::empty(alloc)).into_box()
    }

    /// Puts a value in.
    pub fn put(&mut self, state: Box<SaslEnd, Global>)
        ensures { self.new.place.value ≡ Some state.value }
    {
        *self = Sasl::of_box(state);
    }
}
