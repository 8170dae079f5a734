//! PFX and SFX: the rules that add what a word begins or ends with.

use aff_reader::read_aff;
use affix_tables::AffixTables;
use mark_types::spell_types::chars_of;
use outside::lists::NoMemory;
use std::alloc::{AllocError, Global};
use std::process::Abort;
use std::test::Fail;

/// The suffixes have the places 0 and 1 for `ing`, 2 for `g` and 5 for `sing`, the prefixes 3 for
/// `s` and 4 for `sing`.
const AFF: &str =
    "SFX A Y 2\nSFX A 0 ing z\nSFX A 0 ing\nSFX B Y 1\nSFX B 0 g\nPFX C Y 1\nPFX C 0 s\nPFX D Y 1\nPFX D x sing\n\
    SFX E Y 1\nSFX E x sing\n";

/// Each row is a word, the places of the suffix rules that add what it ends with, and those of the
/// prefix rules that add what it begins with, each with a comma behind it. By hand: what rules
/// strip off and what their conditions say is not looked at, and the added text may be the whole
/// word.
const WORDS: &str = "sing=0,1,2,5,=3,4,
ing=0,1,2,=
bag=2,=
si==3,
singing=0,1,2,=3,4,
xsing=0,1,2,5,=
cat==
==";

/// A prefix rule and a suffix rule that add nothing.
const EMPTY_AFF: &str = "PFX F Y 1\nPFX F 0 0\nSFX G Y 1\nSFX G x 0\n";

/// By hand: each word begins and ends with nothing.
const EMPTY_WORDS: &str = "cat=1,=0,
=1,=0,";

/// Places, each with a comma behind it.
fn told(alloc: Global, places: &[u32]) -> Result<String, AllocError> {
    let mut text = String::new(alloc);
    for place in places {
        write!(text, "{place},")?;
    }
    Ok(text)
}

fn suffixes_told(alloc: Global, tables: &AffixTables, word: &str) -> Result<String, NoMemory> {
    let word = chars_of(alloc, word)?;
    let places = tables.suffixes_of(alloc, &word)?;
    Ok(told(alloc, &places)?)
}

fn prefixes_told(alloc: Global, tables: &AffixTables, word: &str) -> Result<String, NoMemory> {
    let word = chars_of(alloc, word)?;
    let places = tables.prefixes_of(alloc, &word)?;
    Ok(told(alloc, &places)?)
}

fn assert_row(rt: &impl Abort, alloc: Global, tables: &AffixTables, row: &str) -> Result<(), Fail> {
    let mut fields = row.split('=');
    let word = fields.next().unwrap_or("");
    let suffixes = fields.next().unwrap_or("no row");
    let prefixes = fields.next().unwrap_or("no row");
    assert_eq!(rt;
        suffixes_told(alloc, tables, word)?.as_str(),
        suffixes,
        "{word}"
    );
    assert_eq!(rt;
        prefixes_told(alloc, tables, word)?.as_str(),
        prefixes,
        "{word}"
    );
    Ok(())
}

fn assert_places(
    rt: &impl Abort,
    alloc: Global,
    tables: &AffixTables,
    rows: &str,
) -> Result<(), Fail> {
    for row in rows.split('\n') {
        assert_row(rt, alloc, tables, row)?;
    }
    Ok(())
}

fn tables_of(alloc: Global, aff: &str) -> Result<AffixTables, Fail> {
    let affixes = read_aff(alloc, aff.as_bytes())?;
    Ok(AffixTables::new(alloc, &affixes.rules)?)
}

#[test]
fn rules_are_found_by_what_they_add(rt: HostRuntime) -> Result<(), Fail> {
    let tables = tables_of(rt.alloc(), AFF)?;
    assert_places(&rt, rt.alloc(), &tables, WORDS)
}

#[test]
fn rules_that_add_nothing_are_found_everywhere(rt: HostRuntime) -> Result<(), Fail> {
    let tables = tables_of(rt.alloc(), EMPTY_AFF)?;
    assert_places(&rt, rt.alloc(), &tables, EMPTY_WORDS)
}
