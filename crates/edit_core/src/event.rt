//! What is asked of a board.

ghost use Rattle.std.specs.Prelude.{◌≡◌};
ghost use Rattle.edit_core.specs.Events.{event_of, kind_of, caller_of};

use mark_types::Judge;
use paragraph_marks::Checked;
use paragraph_text::Edit;
use std::sync::Arc;

/// What is asked of a board. A session and a worker are known by their numbers, a paragraph by its
/// id.
#[derive(Drop)]
pub enum Event<J: Judge> {
    /// A session edits the text.
    Edit {
        session: u32,
        edit: Edit,
    },
    /// Another dictionary comes into force.
    Load {
        judge: Arc<J>,
    },
    /// A worker takes a waiting paragraph, to check it.
    Claim {
        worker: u32,
        id: u64,
        rev: u64,
    },
    /// A worker has checked a paragraph that had this rev, under this dictionary version.
    Finish {
        worker: u32,
        id: u64,
        rev: u64,
        dict: u64,
        checked: Checked<J>,
    },
    /// A session stops the check of a paragraph.
    Park {
        session: u32,
        id: u64,
    },
    /// A session asks for the check of a parked paragraph.
    Ask {
        session: u32,
        id: u64,
    },
}

/// Which kind of event one is.
#[derive(Clone, Copy, Debug, PartialEq, Eq)]
pub enum EventKind {
    Edit,
    Load,
    Claim,
    Finish,
    Park,
    Ask,
}

impl<J: Judge> Event<J> {
    /// Which kind of event it is.
    pub fn kind(&self) -> EventKind
        ensures { result ≡ kind_of (event_of J.lexicon self.now) }
    {
        match self {
            Event::Edit { .. } => EventKind::Edit,
            Event::Load { .. } => EventKind::Load,
            Event::Claim { .. } => EventKind::Claim,
            Event::Finish { .. } => EventKind::Finish,
            Event::Park { .. } => EventKind::Park,
            Event::Ask { .. } => EventKind::Ask,
        }
    }

    /// A guess of the place where the paragraph stands that it names: ids are given from 0 on, as
    /// paragraphs come, and most come one behind another.
    pub(crate) fn likely_place(&self) -> usize {
        let named = match self {
            Event::Edit { edit, .. } => edit.named(),
            Event::Load { .. } => None,
            Event::Claim { id, .. } => Some(*id),
            Event::Finish { id, .. } => Some(*id),
            Event::Park { id, .. } => Some(*id),
            Event::Ask { id, .. } => Some(*id),
        };
        named.unwrap_or(0) as usize
    }

    /// The number of the session or the worker that it names. A load names none.
    pub fn caller(&self) -> Option<u32>
        ensures { result ≡ caller_of (event_of J.lexicon self.now) }
    {
        match self {
            Event::Edit { session, .. } => Some(*session),
            Event::Load { .. } => None,
            Event::Claim { worker, .. } => Some(*worker),
            Event::Finish { worker, .. } => Some(*worker),
            Event::Park { session, .. } => Some(*session),
            Event::Ask { session, .. } => Some(*session),
        }
    }
}
