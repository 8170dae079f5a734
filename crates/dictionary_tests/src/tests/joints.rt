//! CHECKCOMPOUNDPATTERN: the joints that write two parts of a compound together, where a run tells
//! only whether some of them write a word.

use super::dictionaries::{lexicon_of, text_of};
use joint_checks::{WrittenJoint, joints};
use mark_types::spell_types::{Derivation, Lexicon, chars_of};
use std::alloc::{AllocError, Global};
use std::process::Abort;
use std::test::Fail;

const AFF: &str = "COMPOUNDFLAG X\nCHECKCOMPOUNDPATTERN 1\nCHECKCOMPOUNDPATTERN a/A u/B o\n";

const DIC: &str = "2\nsurya/XA\nudaya/XB\n";

/// Each row is two entries, by their places, and the joints of their words, each with a comma
/// behind it: how many characters it takes off the end of the left word, what it puts, and how many
/// it takes off the front of the right one. By hand: `surya` ends with `a` and has the flag A,
/// `udaya` begins with `u` and has the flag B. So they do not meet as they are, and `o` stands in
/// place of both characters. The row fits no other two, which meet as they are alone. An entry past
/// the last has no word, and no joint is asked for.
const PAIRS: &str = "0 1=1 o 1,
1 0=0  0,
0 0=0  0,
1 1=0  0,
0 2=";

const ORDERED_AFF: &str =
    "COMPOUNDFLAG X\nCHECKCOMPOUNDPATTERN 3\nCHECKCOMPOUNDPATTERN a/A u o\nCHECKCOMPOUNDPATTERN a u e\nCHECKCOMPOUNDPATTERN a/B u o\n";

const ORDERED_DIC: &str = "2\nsurya/XB\nudaya/X\n";

/// By hand: `surya` has the flag B and not A, so the second and the third row fit. The joint of the
/// third has the place of the first row, which puts the same.
const ORDERED: &str = "0 1=1 o 1,1 e 1,";

/// The entry in a field with a number from 0, without affixes.
fn entry_at(row: &str, number: usize) -> Derivation {
    let entry = row.split(' ').nth(number).unwrap_or("").parse::<u32>();
    Derivation {
        entry: entry.ok().unwrap_or(u32::MAX),
        prefix: None,
        first: None,
        second: None,
    }
}

/// Joints, each with a comma behind it.
fn told(alloc: Global, found: &[WrittenJoint]) -> Result<String, AllocError> {
    let mut text = String::new(alloc);
    for joint in found {
        let off_end = joint.off_end;
        let put = text_of(alloc, &joint.put)?;
        let off_begin = joint.off_begin;
        write!(text, "{off_end} {put} {off_begin},")?;
    }
    Ok(text)
}

/// The joints of the words of two entries.
fn joints_told(alloc: Global, lexicon: &Lexicon, row: &str) -> Result<String, Fail> {
    let d = entry_at(row, 0);
    let e = entry_at(row, 1);
    let left = lexicon.entries.get(d.entry as usize);
    let right = lexicon.entries.get(e.entry as usize);
    match (left, right) {
        (Some(left), Some(right)) => {
            let left = chars_of(alloc, left.word())?;
            let right = chars_of(alloc, right.word())?;
            let found = joints(alloc, lexicon, &left, &d, &right, &e)?;
            Ok(told(alloc, &found)?)
        }
        _ => Ok(String::new(alloc)),
    }
}

fn assert_joints(
    rt: &impl Abort,
    alloc: Global,
    lexicon: &Lexicon,
    pairs: &str,
) -> Result<(), Fail> {
    for row in pairs.split('\n') {
        let (pair, want) = row.split_once('=').unwrap_or((row, "no row"));
        assert_eq!(rt; joints_told(alloc, lexicon, pair)?.as_str(), want, "{pair}");
    }
    Ok(())
}

#[test]
fn parts_are_written_together(rt: HostRuntime) -> Result<(), Fail> {
    let lexicon = lexicon_of(rt.alloc(), AFF, DIC)?;
    assert_joints(&rt, rt.alloc(), &lexicon, PAIRS)
}

/// A joint stands where the first row with it stands, though another row fits.
#[test]
fn joints_come_by_their_first_rows(rt: HostRuntime) -> Result<(), Fail> {
    let lexicon = lexicon_of(rt.alloc(), ORDERED_AFF, ORDERED_DIC)?;
    assert_joints(&rt, rt.alloc(), &lexicon, ORDERED)
}
