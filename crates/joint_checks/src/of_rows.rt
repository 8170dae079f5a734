//! Joints by themselves, whatever the parts are: the bare ones, and those of rows.

ghost use Rattle.std.specs.Prelude.{◌≡◌, [], IfOk, if◌then◌else◌, length};
ghost use Rattle.spell_types.specs.Joints.{is_same_joint, joint_of_row, plain_joint};
ghost use Rattle.spell_types.specs.Joints.{replaced_joint};

use spell_types::lists::{Copied, Items, NoMemory};
use spell_types::{Chars, JointPattern, WrittenJoint};
use std::alloc::Global;

/// The joint that takes so many characters off the end of the left part, and does nothing else.
pub fn bare_joint(alloc: Global, off_end: usize) -> WrittenJoint
    ensures { result ≡ record { off_end = off_end; put = []; off_begin = 0 } }
{
    WrittenJoint {
        off_end,
        put: Items::new(alloc),
        off_begin: 0,
    }
}

/// What a row takes off the end of the left part: nothing, if it names a whole word there.
pub fn end_of(row: &JointPattern) -> &[char]
    ensures { result.now ≡ (if row.now.unmodified then [] else row.now.end) }
{
    if row.unmodified { &[] } else { &row.end }
}

/// How many characters a row takes off the end of the left part.
pub(crate) fn off_end_of(row: &JointPattern) -> usize
    ensures { result ≡ (if row.now.unmodified then 0 else length row.now.end) }
{
    if row.unmodified { 0 } else { row.end.len() }
}

/// The joint of a row with this replacement.
pub fn replaced_joint(
    alloc: Global,
    row: &JointPattern,
    put: &Chars,
) -> Result<WrittenJoint, NoMemory>
    ensures { IfOk result (λ joint. joint ≡ replaced_joint row.now put.now) }
{
    Ok(WrittenJoint {
        off_end: off_end_of(row),
        put: put.copy(alloc)?,
        off_begin: row.begin.len(),
    })
}

/// The joint of a row, if it has a replacement.
pub(crate) fn joint_of_row(
    alloc: Global,
    row: &JointPattern,
) -> Result<Option<WrittenJoint>, NoMemory>
    ensures { IfOk result (λ joint. joint ≡ joint_of_row row.now) }
{
    match &row.replacement {
        None => Ok(None),
        Some(put) => Ok(Some(replaced_joint(alloc, row, put)?)),
    }
}

/// Whether a joint takes nothing off and puts nothing.
pub fn is_plain(joint: &WrittenJoint) -> bool
    ensures { result ≡ is_same_joint joint.now plain_joint }
{
    is_same(joint, 0, &[], 0)
}

/// Whether a joint takes so many characters off on both sides, and puts this between them.
#[tactic(auto, unfolding(spell_types::specs::Joints::is_same_joint))]
pub(crate) fn is_same(joint: &WrittenJoint, off_end: usize, put: &[char], off_begin: usize) -> bool
    ensures { result ≡ is_same_joint joint.now
        (record { off_end = off_end; put = put.now; off_begin = off_begin }) }
{
    joint.off_end == off_end && *joint.put.as_slice() == *put && joint.off_begin == off_begin
}
