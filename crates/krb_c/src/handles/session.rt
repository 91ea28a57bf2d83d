//! The handle of a session, as C keeps it.

ghost use Rattle.std.specs.Prelude.{◌≡◌, Some, None, Option, option_map, is_none};
ghost use Rattle.std_heap.specs.contracts.GlobalAllocator.TheImpl.{ghosts};
ghost use Rattle.krb_c.specs.Places.{place_owns, count_of};
ghost use Rattle.krb_sessions.specs.declared.session.Session.{Session};
ghost use Rattle.krb_sessions.specs.contracts.session.Session.{the_row};

use super::parts::Parts;
use krb_entrance::Session;
use std::alloc::Global;
use std::marker::Model;
use std::mem::replace;
use std::ptr::null_mut;

/// The address of a session on the heap, if there is one.
#[repr(C)]
#[derive(Drop)]
pub struct SessionPlace {
    at: *mut u8,
    alloc: Global,
    pub ghost value: { Option Session },
}

impl Model for SessionPlace {
    ghost also_owns = { λ place. place_owns (ghosts.dealloc_token place.alloc) the_row place.at place.value };
}

unsafe impl Send for SessionPlace {}

impl SessionPlace {
    fn empty(alloc: Global) -> SessionPlace
        ensures { result.value ≡ None }
    {
        SessionPlace {
            at: null_mut(),
            alloc,
        }
    }

    fn of_parts(parts: Parts<Session, Global>) -> SessionPlace
        ensures { result.value ≡ Some parts.value }
    {
        let Parts { at, alloc } = parts;
        SessionPlace {
            at: at as *mut u8,
            alloc,
        }
    }

    fn into_parts(self) -> Parts<Session, Global>
        requires { (self.value ≡ None) → ⊥ }
        ensures { Some result.value ≡ self.value }
    {
        let SessionPlace { at, alloc } = self;
        Parts {
            at: at as *mut Session,
            alloc,
        }
    }
}

/// A session that C keeps: how many there are, 0 or 1, and where it lies.
#[repr(C)]
pub struct Connection {
    count: u64,
    pub place: SessionPlace,
    ghost counted: { count ≡ count_of place.value },
}

impl Drop for Connection {
    fn drop(self) {
        drop(self.into_box());
    }
}

impl Connection {
    fn empty(alloc: Global) -> Connection
        ensures { result.place.value ≡ None }
    {
        Connection {
            count: 0,
            place: SessionPlace::empty(alloc),
        }
    }

    fn of_box(state: Box<Session, Global>) -> Connection
        ensures { result.place.value ≡ Some state.value }
    {
        Connection {
            count: 1,
            place: SessionPlace::of_parts(Parts::of(state)),
        }
    }

    fn into_box(self) -> Option<Box<Session, Global>>
        ensures { option_map (λ state. state.value) result ≡ self.place.value }
    {
        let Connection { count, place } = self;
        if count == 0 {
            return None;
        }
        Some(place.into_parts().into_box())
    }

    /// Returns whether the handle is empty.
    pub fn is_empty(&self) -> bool
        ensures { result ≡ is_none self.now.place.value }
    {
        self.count == 0
    }

    /// Takes the value out, and leaves an empty handle.
    pub fn take(&mut self, alloc: Global) -> Option<Box<Session, Global>>
        ensures taken { option_map (λ state. state.value) result ≡ self.old.place.value }
        ensures left { self.new.place.value ≡ None }
    {
        replace(self, Connection::empty(alloc)).into_box()
    }

    /// Puts a value in.
    pub fn put(&mut self, state: Box<Session, Global>)
        ensures { self.new.place.value ≡ Some state.value }
    {
        *self = Connection::of_box(state);
    }
}
