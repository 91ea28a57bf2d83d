//! The handle of an acceptor, as C keeps it.

ghost use Rattle.std.specs.Prelude.{◌≡◌, Some, None, Option, option_map, is_none};
ghost use Rattle.std_heap.specs.contracts.GlobalAllocator.TheImpl.{ghosts};
ghost use Rattle.krb_c.specs.Places.{place_owns, count_of};
ghost use Rattle.krb_entrance.specs.declared.service.Service.{Service};
ghost use Rattle.krb_entrance.specs.contracts.service.Service.{the_row};

use super::parts::Parts;
use krb_entrance::Service;
use std::alloc::Global;
use std::marker::Model;
use std::mem::replace;
use std::ptr::null_mut;

/// The address of an acceptor on the heap, if there is one.
#[repr(C)]
#[derive(Drop)]
pub struct AcceptorPlace {
    at: *mut u8,
    alloc: Global,
    pub ghost value: { Option Service },
}

impl Model for AcceptorPlace {
    ghost also_owns = { λ place. place_owns (ghosts.dealloc_token place.alloc) the_row place.at place.value };
}

unsafe impl Send for AcceptorPlace {}

impl AcceptorPlace {
    fn empty(alloc: Global) -> AcceptorPlace
        ensures { result.value ≡ None }
    {
        AcceptorPlace {
            at: null_mut(),
            alloc,
        }
    }

    fn of_parts(parts: Parts<Service, Global>) -> AcceptorPlace
        ensures { result.value ≡ Some parts.value }
    {
        let Parts { at, alloc } = parts;
        AcceptorPlace {
            at: at as *mut u8,
            alloc,
        }
    }

    fn into_parts(self) -> Parts<Service, Global>
        requires { (self.value ≡ None) → ⊥ }
        ensures { Some result.value ≡ self.value }
    {
        let AcceptorPlace { at, alloc } = self;
        Parts {
            at: at as *mut Service,
            alloc,
        }
    }
}

/// An acceptor that C keeps: how many there are, 0 or 1, and where it lies.
#[repr(C)]
pub struct Acceptor {
    count: u64,
    pub place: AcceptorPlace,
    ghost counted: { count ≡ count_of place.value },
}

impl Drop for Acceptor {
    fn drop(self) {
        drop(self.into_box());
    }
}

impl Acceptor {
    fn empty(alloc: Global) -> Acceptor
        ensures { result.place.value ≡ None }
    {
        Acceptor {
            count: 0,
            place: AcceptorPlace::empty(alloc),
        }
    }

    fn of_box(state: Box<Service, Global>) -> Acceptor
        ensures { result.place.value ≡ Some state.value }
    {
        Acceptor {
            count: 1,
            place: AcceptorPlace::of_parts(Parts::of(state)),
        }
    }

    fn into_box(self) -> Option<Box<Service, Global>>
        ensures { option_map (λ state. state.value) result ≡ self.place.value }
    {
        let Acceptor { count, place } = self;
        if count == 0 {
            return None;
        }
        Some(place.into_parts().into_box())
    }

    /// Returns whether the handle is empty.
    pub fn is_empty(&self) -> bool
        ensures { result ≡ is_none self.now.place.value }
    {
        self.count == 0
    }

    /// Takes the value out, and leaves an empty handle.
    pub fn take(&mut self, alloc: Global) -> Option<Box<Service, Global>>
        ensures taken { option_map (λ state. state.value) result ≡ self.old.place.value }
        ensures left { self.new.place.value ≡ None }
    {
        replace(self, Acceptor::empty(alloc)).into_box()
    }

    /// Puts a value in.
    pub fn put(&mut self, state: Box<Service, Global>)
        ensures { self.new.place.value ≡ Some state.value }
    {
        *self = Acceptor::of_box(state);
    }
}
