//! The handle that C has of a dictionary.

ghost use Rattle.std.specs.Prelude.{◌≡◌, Some, None, is_some, option_map};

use crate::held::Held;
use crate::kept::KeptDictionary;
use std::alloc::Global;
use std::mem::{forget, replace};

/// A handle on a dictionary, or a closed one. C keeps it where it likes, and begins with zeros,
/// which is a closed one.
#[repr(C)]
pub struct Dictionary {
    held: Held,
    is_open: bool,
    ghost agrees: { is_open ≡ is_some held.value },
}

impl Dictionary {
    /// A closed handle.
    pub fn closed(alloc: Global) -> Dictionary
        ensures { result.held.value ≡ None }
    {
        Dictionary {
            held: Held::none(alloc),
            is_open: false,
        }
    }

    /// A handle on what is kept.
    pub fn of(kept: Box<KeptDictionary>) -> Dictionary
        ensures { result.held.value ≡ Some kept.value }
    {
        Dictionary {
            held: Held::of(kept),
            is_open: true,
        }
    }

    /// Takes what is kept, if anything is, and leaves a closed handle.
    pub fn take(&mut self, alloc: Global) -> Option<Box<KeptDictionary>>
        ensures taken { option_map (λ kept. kept.value) result ≡ self.old.held.value }
        ensures closed { self.new.held.value ≡ None }
    {
        replace(self, Dictionary::closed(alloc)).into_kept()
    }

    /// What is kept, if anything is.
    fn into_kept(self) -> Option<Box<KeptDictionary>>
        ensures { option_map (λ kept. kept.value) result ≡ self.held.value }
    {
        let Dictionary { held, is_open } = self;
        if is_open {
            return Some(held.into_box());
        }
        forget(held);
        None
    }
}

/// What is kept goes with its handle.
impl Drop for Dictionary {
    fn drop(self) {
        drop(self.into_kept());
    }
}
