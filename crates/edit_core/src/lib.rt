//! A board, its events, and the one run that they make.
#![tactic(auto)]

mod board;
mod crossing;
mod event;
mod laws;
mod limits;
mod opening;
mod refusal;
mod replay;
mod state;
mod step;
mod view;

pub use board::Board;
pub use event::{Event, EventKind};
pub use laws::{
    checks_are_fit, entries_add_up, events_are_decided, finished_marks_are_local, fronts_are_runs,
    ids_name_paragraphs, kinds_add_up, numbers_add_up, replays_are_runs, runs_are_short,
    runs_go_on, runs_only_grow, steps_keep_validity, workers_keep_texts,
};
pub use limits::{MOST_MOVED, moves_are_bounded};
pub use opening::OpeningFault;
pub use paragraph_text;
pub use refusal::Refusal;
pub use state::{Standing, State};
pub use view::{ParaView, Progress, Shown, Versions, shown_marks_are_local};
