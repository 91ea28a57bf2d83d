//! The handle of an initiator, as C keeps it.

ghost use Rattle.std.specs.Prelude.{◌≡◌, Some, None, Option, option_map, is_none};
ghost use Rattle.std_heap.specs.contracts.GlobalAllocator.TheImpl.{ghosts};
ghost use Rattle.krb_c.specs.Places.{place_owns, count_of};
ghost use Rattle.krb_dialogue.specs.declared.dialogue.Dialogue.{Dialogue};
ghost use Rattle.krb_dialogue.specs.contracts.dialogue.Dialogue.{the_row};

use super::parts::Parts;
use krb_dialogue::Dialogue;
use std::alloc::Global;
use std::marker::Model;
use std::mem::replace;
use std::ptr::null_mut;

/// The address of a dialogue on the heap, if there is one.
#[repr(C)]
#[derive(Drop)]
pub struct DialoguePlace {
    at: *mut u8,
    alloc: Global,
    pub ghost value: { Option Dialogue },
}

impl Model for DialoguePlace {
    ghost also_owns = { λ place. place_owns (ghosts.dealloc_token place.alloc) the_row place.at place.value };
}

unsafe impl Send for DialoguePlace {}

impl DialoguePlace {
    fn empty(alloc: Global) -> DialoguePlace
        ensures { result.value ≡ None }
    {
        DialoguePlace {
            at: null_mut(),
            alloc,
        }
    }

    fn of_parts(parts: Parts<Dialogue, Global>) -> DialoguePlace
        ensures { result.value ≡ Some parts.value }
    {
        let Parts { at, alloc } = parts;
        DialoguePlace {
            at: at as *mut u8,
            alloc,
        }
    }

    fn into_parts(self) -> Parts<Dialogue, Global>
        requires { (self.value ≡ None) → ⊥ }
        ensures { Some result.value ≡ self.value }
    {
        let DialoguePlace { at, alloc } = self;
        Parts {
            at: at as *mut Dialogue,
            alloc,
        }
    }
}

/// An initiator that C keeps: how many there are, 0 or 1, and where it lies.
#[repr(C)]
pub struct Initiator {
    count: u64,
    pub place: DialoguePlace,
    ghost counted: { count ≡ count_of place.value },
}

impl Drop for Initiator {
    fn drop(self) {
        drop(self.into_box());
    }
}

impl Initiator {
    fn empty(alloc: Global) -> Initiator
        ensures { result.place.value ≡ None }
    {
        Initiator {
            count: 0,
            place: DialoguePlace::empty(alloc),
        }
    }

    fn of_box(state: Box<Dialogue, Global>) -> Initiator
        ensures { result.place.value ≡ Some state.value }
    {
        Initiator {
            count: 1,
            place: DialoguePlace::of_parts(Parts::of(state)),
        }
    }

    fn into_box(self) -> Option<Box<Dialogue, Global>>
        ensures { option_map (λ state. state.value) result ≡ self.place.value }
    {
        let Initiator { count, place } = self;
        if count == 0 {
            return None;
        }
        Some(place.into_parts().into_box())
    }

    /// Returns whether the handle is empty.
    pub fn is_empty(&self) -> bool
        ensures { result ≡ is_none self.now.place.value }
    {
        self.count == 0
    }

    /// Takes the value out, and leaves an empty handle.
    pub fn take(&mut self, alloc: Global) -> Option<Box<Dialogue, Global>>
        ensures taken { option_map (λ state. state.value) result ≡ self.old.place.value }
        ensures left { self.new.place.value ≡ None }
    {
        replace(self, Initiator::empty(alloc)).into_box()
    }

    /// Puts a value in.
    pub fn put(&mut self, state: Box<Dialogue, Global>)
        ensures { self.new.place.value ≡ Some state.value }
    {
        *self = Initiator::of_box(state);
    }
}
