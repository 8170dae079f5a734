//! A value behind a pointer that C keeps.

ghost use Rattle.std.specs.Prelude.{◌≡◌, Option, Some, None, IsSome};
ghost use Rattle.std.specs.Box.Ownership.{box_owns};
ghost use Rattle.affedit_c.specs.Dictionaries.{HandleSeen};

use crate::kept::KeptDictionary;
use std::alloc::{Allocator, Global};
use std::marker::Model;
use std::ptr::null_mut;

/// A box with its fields in sight.
struct Parts<T, A: Allocator> {
    ptr: *mut T,
    alloc: A,
    ghost value: { T },
}

impl<T, A: Allocator> Model for Parts<T, A> {
    ghost also_owns = { λ p. box_owns (A.dealloc_token p.alloc) T.row p.ptr p.value };
}

impl<T, A: Allocator> Parts<T, A> {
    fn of(owner: Box<T, A>) -> Parts<T, A>
    where
        T: Drop,
        ensures { result.value ≡ owner.value }
    {
        let (ptr, alloc) = Box::into_raw_with_allocator(owner);
        Parts { ptr, alloc }
    }

    fn into_box(self) -> Box<T, A>
        ensures { result.value ≡ self.value }
    {
        let Parts { ptr, alloc } = self;
        // The parts own what a box owns, and are used up.
        unsafe { Box::from_raw(alloc, ptr) }
    }
}

/// A pointer to what is kept, or to nothing. C is given it, and so it says the type of nothing that
/// C may not read. Dropping it frees nothing: `into_box` gives back what is there.
#[repr(C)]
#[derive(Drop)]
pub struct Held {
    at: *mut u8,
    /// It takes no bytes.
    alloc: Global,
    pub ghost value: { Option HandleSeen },
}

impl Model for Held {
    ghost use Rattle.std_heap.specs.contracts.GlobalAllocator.TheImpl.{ghosts};
    ghost use Rattle.affedit_c.specs.Holding.{may_own};
    ghost use Rattle.affedit_c.specs.contracts.kept.KeptDictionary.{the_row};

    ghost also_owns = { λ held.
        may_own (ghosts.dealloc_token held.alloc) the_row held.at held.value };
}

// What is kept may go to another thread, and so may the right to free its memory.
unsafe impl Send for Held {}

impl Held {
    /// Nothing.
    pub fn none(alloc: Global) -> Held
        ensures { result.value ≡ None }
    {
        Held {
            at: null_mut(),
            alloc,
        }
    }

    /// What a box owns.
    pub fn of(kept: Box<KeptDictionary>) -> Held
        ensures { result.value ≡ Some kept.value }
    {
        Held::of_parts(Parts::of(kept))
    }

    /// What is there, as a box.
    pub fn into_box(self) -> Box<KeptDictionary>
        requires { IsSome self.value }
        ensures { self.value ≡ Some result.value }
    {
        self.into_parts().into_box()
    }

    fn of_parts(parts: Parts<KeptDictionary, Global>) -> Held
        ensures { result.value ≡ Some parts.value }
    {
        let Parts { ptr, alloc } = parts;
        Held {
            at: ptr as *mut u8,
            alloc,
        }
    }

    fn into_parts(self) -> Parts<KeptDictionary, Global>
        requires { IsSome self.value }
        ensures { self.value ≡ Some result.value }
    {
        let Held { at, alloc } = self;
        Parts {
            ptr: at as *mut KeptDictionary,
            alloc,
        }
    }
}
