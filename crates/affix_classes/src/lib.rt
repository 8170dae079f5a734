//! The conditions of affix rules, read and matched, and rules attached to words and undone.
#![tactic(auto)]

mod reading;
mod undoing;

pub use reading::{ConditionFault, conditions_are_read_by_pieces, read_condition};
pub use spell_types::{attach, matches_back, matches_front};
pub use undoing::{undo_prefix, undo_suffix, undoing_is_unique, undoing_leads_back};
