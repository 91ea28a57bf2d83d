//! The handle of a keyring, as C keeps it.

ghost use Rattle.std.specs.Prelude.{◌≡◌, Some, None, Option, option_map, is_none};
ghost use Rattle.std.specs.Coded.{coded_option};
ghost use Rattle.std_heap.specs.contracts.GlobalAllocator.TheImpl.{ghosts};
ghost use Rattle.krb_c.specs.Places.{place_owns, count_of};
ghost use Rattle.krb_keyring.specs.declared.keyring.Keyring.{Keyring};
ghost use Rattle.krb_keyring.specs.contracts.keyring.Keyring.{the_row};

use super::parts::Parts;
use krb_keyring::Keyring;
use std::alloc::Global;
use std::marker::Model;
use std::mem::replace;
use std::ptr::null_mut;

/// The address of a keyring on the heap, if there is one.
#[repr(C)]
#[derive(Drop)]
pub struct RingPlace {
    at: *mut u8,
    alloc: Global,
    pub ghost value: { Option Keyring } by { coded_option the_row.coded },
}

impl Model for RingPlace {
    ghost also_owns = { λ place. place_owns (ghosts.dealloc_token place.alloc) the_row place.at place.value };
}

unsafe impl Send for RingPlace {}

impl RingPlace {
    fn empty(alloc: Global) -> RingPlace
        ensures { result.value ≡ None }
    {
        RingPlace {
            at: null_mut(),
            alloc,
        }
    }

    fn of_parts(parts: Parts<Keyring, Global>) -> RingPlace
        ensures { result.value ≡ Some parts.value }
    {
        let Parts { at, alloc } = parts;
        RingPlace {
            at: at as *mut u8,
            alloc,
        }
    }

    fn into_parts(self) -> Parts<Keyring, Global>
        requires { (self.value ≡ None) → ⊥ }
        ensures { Some result.value ≡ self.value }
    {
        let RingPlace { at, alloc } = self;
        Parts {
            at: at as *mut Keyring,
            alloc,
        }
    }
}

/// A keyring that C keeps: how many there are, 0 or 1, and where it lies.
#[repr(C)]
pub struct Ring {
    count: u64,
    pub place: RingPlace,
    ghost counted: { count ≡ count_of place.value },
}

impl Drop for Ring {
    fn drop(self) {
        drop(self.into_box());
    }
}

impl Ring {
    fn empty(alloc: Global) -> Ring
        ensures { result.place.value ≡ None }
    {
        Ring {
            count: 0,
            place: RingPlace::empty(alloc),
        }
    }

    fn of_box(state: Box<Keyring, Global>) -> Ring
        ensures { result.place.value ≡ Some state.value }
    {
        Ring {
            count: 1,
            place: RingPlace::of_parts(Parts::of(state)),
        }
    }

    fn into_box(self) -> Option<Box<Keyring, Global>>
        ensures { option_map (λ state. state.value) result ≡ self.place.value }
    {
        let Ring { count, place } = self;
        if count == 0 {
            return None;
        }
        Some(place.into_parts().into_box())
    }

    /// Returns whether the handle is empty.
    pub fn is_empty(&self) -> bool
        ensures { result ≡ is_none self.now.place.value }
    {
        self.count == 0
    }

    /// Takes the value out, and leaves an empty handle.
    pub fn take(&mut self, alloc: Global) -> Option<Box<Keyring, Global>>
        ensures taken { option_map (λ state. state.value) result ≡ self.old.place.value }
        ensures left { self.new.place.value ≡ None }
    {
        replace(self, Ring::empty(alloc)).into_box()
    }

    /// Puts a value in.
    pub fn put(&mut self, state: Box<Keyring, Global>)
        ensures { self.new.place.value ≡ Some state.value }
    {
        *self = Ring::of_box(state);
    }
}
