//! Derivations that no run asks about, since they name what is not there.

use super::dictionaries::{lexicon_of, text_of};
use mark_types::spell_types::{Derivation, Lexicon, form, licensed};
use std::alloc::Global;
use std::process::Abort;
use std::test::Fail;

const AFF: &str = "PFX U Y 1\nPFX U 0 un\nSFX S Y 1\nSFX S 0 s\nSFX A Y 1\nSFX A 0 able/S\n";

const DIC: &str = "1\ndo/USA\n";

/// Each row is a derivation, by the places of its entry, its prefix and its suffixes, and its form.
/// `?` is where it names a second suffix and no first, a rule of the other side, or a rule or an
/// entry past the last.
const DERIVATIONS: &str =
    "0 - - - do|0 0 - - undo|0 - 1 - dos|0 - 2 1 doables|0 - - 1 ?|0 1 - - ?|0 - 0 - ?|0 - 2 0 ?|0 3 - - ?|1 - - - ?";

/// The place in a field with a number from 0, if it is one.
fn place_at(row: &str, number: usize) -> Option<u32> {
    row.split(' ').nth(number)?.parse::<u32>().ok()
}

fn derivation_of(row: &str) -> Derivation {
    Derivation {
        entry: place_at(row, 0).unwrap_or(u32::MAX),
        prefix: place_at(row, 1),
        first: place_at(row, 2),
        second: place_at(row, 3),
    }
}

/// The form of a derivation, or `?` where it has none.
fn form_of(alloc: Global, lexicon: &Lexicon, d: &Derivation) -> Result<String, Fail> {
    match form(alloc, lexicon, d)? {
        None => Ok(String::from_str(alloc, "?")?),
        Some(word) => Ok(text_of(alloc, &word)?),
    }
}

/// That a derivation is licensed, and has the form, or that neither is so.
fn assert_form(rt: &impl Abort, alloc: Global, lexicon: &Lexicon, row: &str) -> Result<(), Fail> {
    let d = derivation_of(row);
    let want = row.split(' ').nth(4).unwrap_or("");
    assert_eq!(rt; form_of(alloc, lexicon, &d)?.as_str(), want, "{row}");
    assert_eq!(rt; licensed(lexicon, &d), want != "?", "{row}");
    Ok(())
}

fn assert_forms(rt: &impl Abort, alloc: Global, lexicon: &Lexicon) -> Result<(), Fail> {
    for row in DERIVATIONS.split('|') {
        assert_form(rt, alloc, lexicon, row)?;
    }
    Ok(())
}

#[test]
fn names_nothing_that_is_not_there(rt: HostRuntime) -> Result<(), Fail> {
    let lexicon = lexicon_of(rt.alloc(), AFF, DIC)?;
    assert_forms(&rt, rt.alloc(), &lexicon)
}
