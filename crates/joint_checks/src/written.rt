//! How two parts of a compound are written together.

ghost use Rattle.std.specs.Prelude.{◌≡◌, false};
ghost use Rattle.std.specs.List.{list_any};
ghost use Rattle.std.specs.Option.{option_map_or};
ghost use Rattle.spell_types.specs.Joints.{is_replaced_by, is_same_joint, is_simplified};
ghost use Rattle.spell_types.specs.Joints.{is_written_joint, joint_of_row};

use crate::meeting::{fits_joint, is_case, is_dup, is_joint_of, is_triple, joint_ok, one_fits};
use crate::of_rows::{is_plain, is_same, off_end_of};
use spell_types::{Derivation, JointPattern, Lexicon, WrittenJoint};

/// Whether a joint writes two parts together, the forms of these derivations: as they are, with one
/// character of three left out, or with the replacement of a row. These are the options
/// SIMPLIFIEDTRIPLE and CHECKCOMPOUNDPATTERN of hunspell(5). Which of the other options a joint has
/// to pass is this project's own rule.
#[tactic(auto, unfolding(spell_types::specs::Joints::is_written_joint))]
pub fn is_written_joint(
    lexicon: &Lexicon,
    x: &[char],
    d: &Derivation,
    y: &[char],
    e: &Derivation,
    joint: &WrittenJoint,
) -> bool
    ensures { result ≡ is_written_joint lexicon.now x.now d.now y.now e.now joint.now }
{
    (is_plain(joint) && joint_ok(lexicon, x, d, y, e))
        || (is_same(joint, 1, &[], 0) && is_simplified(lexicon, x, d, y, e))
        || (is_joint_of(&lexicon.affixes.options, x, y) && is_replaced(lexicon, x, d, y, e, joint))
}

/// Whether two parts stand beside each other with one character of three left out: nothing but the
/// three forbids that they meet.
#[tactic(auto, unfolding(spell_types::specs::Joints::is_simplified))]
fn is_simplified(lexicon: &Lexicon, x: &[char], d: &Derivation, y: &[char], e: &Derivation) -> bool
    ensures { result ≡ is_simplified lexicon.now x.now d.now y.now e.now }
{
    let options = &lexicon.affixes.options;
    options.simplified
        && is_triple(options, x, y)
        && !is_dup(options, x, y)
        && !is_case(options, x, y)
        && !one_fits(lexicon, x, d, y, e)
}

/// Whether the joint is that of a row that fits two parts.
fn is_replaced(
    lexicon: &Lexicon,
    x: &[char],
    d: &Derivation,
    y: &[char],
    e: &Derivation,
    joint: &WrittenJoint,
) -> bool
    ensures { result
        ≡ list_any (is_replaced_by lexicon.now x.now d.now y.now e.now joint.now)
        lexicon.now.affixes.joints }
{
    lexicon.affixes.joints.iter().any(|row| fits_joint(lexicon, x, d, y, e, row)
        && is_of_row(joint, row))
}

/// Whether a joint is that of a row with a replacement.
fn is_of_row(joint: &WrittenJoint, row: &JointPattern) -> bool
    ensures { result ≡ option_map_or (is_same_joint joint.now) (joint_of_row row.now) false }
{
    match &row.replacement {
        None => false,
        Some(put) => is_same(joint, off_end_of(row), put, row.begin.len()),
    }
}
