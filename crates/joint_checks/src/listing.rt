//! All joints that write two parts of a compound together.

ghost use Rattle.std.specs.Prelude.{◌≡◌, IfOk, OnOk, fold};
ghost use Rattle.spell_types.specs.Joints.{joints_of};
ghost use Rattle.joint_checks.specs.Listing.{is_listed, is_joint_between, with_joint, with_row};

use crate::of_rows::{bare_joint, is_same, joint_of_row};
use crate::written::is_written_joint;
use smallvec::SmallVec;
use spell_types::lists::NoMemory;
use spell_types::{Derivation, JointPattern, Lexicon, WrittenJoint};
use std::alloc::Global;

/// Two parts that meet, the forms of their derivations.
#[derive(Clone, Copy)]
pub(crate) struct Neighbours<'a> {
    pub(crate) lexicon: &'a Lexicon,
    pub(crate) x: &'a [char],
    pub(crate) d: &'a Derivation,
    pub(crate) y: &'a [char],
    pub(crate) e: &'a Derivation,
}

/// All joints that write two parts together, the forms of these derivations. First comes the one
/// that leaves both as they are, then the one that leaves out one character of three. Then come
/// those of the rows, in the order of the file. None comes twice.
///
/// A joint says how many characters it takes off each part where they meet, and which it puts
/// there. SIMPLIFIEDTRIPLE and the replacement of CHECKCOMPOUNDPATTERN are options of hunspell(5).
/// Which other options a joint has to pass is this project's own rule. So is that each part keeps a
/// character, which is not asked here.
pub fn joints(
    alloc: Global,
    lexicon: &Lexicon,
    x: &[char],
    d: &Derivation,
    y: &[char],
    e: &Derivation,
) -> Result<SmallVec<WrittenJoint, 4>, NoMemory>
    ensures { IfOk result (λ found. found.items ≡ joints_of lexicon.now x.now d.now y.now e.now) }
{
    let two = Neighbours {
        lexicon,
        x,
        d,
        y,
        e,
    };
    let mut found = SmallVec::new(alloc);
    add(two, bare_joint(alloc, 0), &mut found)?;
    add(two, bare_joint(alloc, 1), &mut found)?;
    add_of_rows(alloc, two, &lexicon.affixes.joints, &mut found)?;
    Ok(found)
}

/// Adds the joints of the rows, each as `add` does.
fn add_of_rows(
    alloc: Global,
    two: Neighbours,
    rows: &[JointPattern],
    found: &mut SmallVec<WrittenJoint, 4>,
) -> Result<(), NoMemory>
    ensures { OnOk result (found.new.items
        ≡ fold (with_row (is_joint_between two.entry)) found.old.items rows.now) }
{
    for row in rows {
        add_of_row(alloc, two, row, found)?;
    }
    Ok(())
}

/// Adds the joint of a row, if it has one.
fn add_of_row(
    alloc: Global,
    two: Neighbours,
    row: &JointPattern,
    found: &mut SmallVec<WrittenJoint, 4>,
) -> Result<(), NoMemory>
    ensures { OnOk result (found.new.items ≡ with_row (is_joint_between two.entry) found.old.items row.now) }
{
    if let Some(joint) = joint_of_row(alloc, row)? {
        add(two, joint, found)?;
    }
    Ok(())
}

/// Adds a joint at the end, if it is one of the two parts and not there already.
fn add(
    two: Neighbours,
    joint: WrittenJoint,
    found: &mut SmallVec<WrittenJoint, 4>,
) -> Result<(), NoMemory>
    ensures { OnOk result (found.new.items ≡ with_joint (is_joint_between two.entry) found.old.items joint) }
{
    if is_of(two, &joint) && !is_listed(found, &joint) {
        found.push(joint)?;
    }
    Ok(())
}

/// Whether a joint is one of the two parts.
fn is_of(two: Neighbours, joint: &WrittenJoint) -> bool
    ensures { result ≡ is_joint_between two.entry joint.now }
{
    is_written_joint(two.lexicon, two.x, two.d, two.y, two.e, joint)
}

/// Whether a joint like this is among these.
fn is_listed(found: &[WrittenJoint], joint: &WrittenJoint) -> bool
    ensures { result ≡ is_listed found.now joint.now }
{
    found.iter().any(|other| is_same(joint, other.off_end, &other.put, other.off_begin))
}
