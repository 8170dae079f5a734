//! What is asked of the parts of a compound: of each at its place, and of neighbours where they
//! meet. Only `joints` and what makes one joint take memory.
#![tactic(auto)]

mod listing;
mod meeting;
mod of_rows;
mod places;
mod written;

pub use listing::joints;
pub use meeting::joint_ok;
pub use of_rows::{bare_joint, end_of, is_plain, replaced_joint};
pub use places::{is_long_enough, part_ok, stands_at, stands_in_rule};
pub use spell_types::WrittenJoint;
pub use written::is_written_joint;
