//! The files that words name, the failures of a call, and how it ends.
#![tactic(auto)]

mod ending;
mod failure;
mod limits;
mod loading;
mod names;
mod workers;

pub use ending::{End, Ended, SINK_FAILED, put, put_end, put_line, put_wanting};
pub use failure::Failure;
pub use limits::{MOST_WORKERS, workers_are_limited};
pub use loading::{
    DictionaryParts, judge_in_threads, judge_made, load_base, load_base_judge, load_bytes,
    load_dictionary, load_judge, load_parts, load_speller, load_unextended, shared,
};
pub use names::DictionaryNames;
pub use workers::Workers;
