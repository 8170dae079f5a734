//! How many events came through an eye.

ghost use Rattle.std.specs.Prelude.{◌≡◌, ◌+◌, ◌<◌, ◌^◌, if◌then◌else◌};
ghost use Rattle.edit_core.specs.Runs.{is_kind};
ghost use Rattle.edit_core.specs.declared.event.EventKind.TheVariants as kind;
ghost use Rattle.board_share.specs.Eyes.{counted, entries_in, none_counted};

use edit_core::EventKind;

/// How many events came through an eye and were published.
#[derive(Clone, Copy, Debug, PartialEq, Eq)]
pub struct Counts {
    pub edits: u64,
    pub loads: u64,
    /// Paragraphs that were parked or asked for.
    pub asks: u64,
    /// Paragraphs that were claimed or finished.
    pub checks: u64,
}

impl Counts {
    /// No event.
    pub(crate) fn none() -> Counts
        ensures { result ≡ none_counted }
    {
        Counts {
            edits: 0,
            loads: 0,
            asks: 0,
            checks: 0,
        }
    }

    /// One event more, of this kind.
    pub(crate) fn counted(self, kind: EventKind) -> Counts
        requires { entries_in self + 1 < 2 ^ 64 }
        ensures { result ≡ counted kind self }
    {
        let mut counts = self;
        match kind {
            EventKind::Edit => counts.edits += 1,
            EventKind::Load => counts.loads += 1,
            EventKind::Park | EventKind::Ask => counts.asks += 1,
            EventKind::Claim | EventKind::Finish => counts.checks += 1,
        }
        counts
    }
}

/// How many edits and how many loads a history has.
#[derive(Clone, Copy, Debug, PartialEq, Eq)]
pub struct Totals {
    pub(crate) edits: u64,
    pub(crate) loads: u64,
}

impl Totals {
    /// No event.
    pub(crate) fn none() -> Totals
        ensures { result ≡ record { edits = 0; loads = 0 } }
    {
        Totals { edits: 0, loads: 0 }
    }

    /// One event more, of this kind.
    pub(crate) fn counted(self, asked: EventKind) -> Totals
        requires { (self.edits + 1 < 2 ^ 64) × (self.loads + 1 < 2 ^ 64) }
        ensures edits { result.edits ≡ self.edits + (if is_kind kind.Edit asked then 1 else 0) }
        ensures loads { result.loads ≡ self.loads + (if is_kind kind.Load asked then 1 else 0) }
    {
        let Totals { edits, loads } = self;
        match asked {
            EventKind::Edit => Totals {
                edits: edits + 1,
                loads,
            },
            EventKind::Load => Totals {
                edits,
                loads: loads + 1,
            },
            _ => Totals { edits, loads },
        }
    }
}
