//! Why the forms of a dictionary are not listed.

ghost use Rattle.std.specs.Prelude.{◌≡◌};
ghost use Rattle.form_lister.specs.declared.faults.FormsFault.TheVariants.{NoMemory as OutOfMemory};

use spell_types::lists::NoMemory;

/// Why the forms of a dictionary are not listed.
#[derive(Clone, Copy, Debug, PartialEq, Eq)]
pub enum FormsFault {
    /// There are more forms than this.
    TooMany { limit: u64 },
    /// Memory for the list could not be had.
    NoMemory,
}

impl From<NoMemory> for FormsFault {
    ghost from_gives = { λ _ fault. fault ≡ OutOfMemory };

    fn from(_wanting: NoMemory) -> FormsFault {
        FormsFault::NoMemory
    }
}
