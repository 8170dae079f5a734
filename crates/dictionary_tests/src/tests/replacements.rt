//! REP: the words that a common misspelling may stand for.

use super::dictionaries::{affixes_of, words_told};
use conversions::rep_variants;
use mark_types::spell_types::{Rep, chars_of};
use outside::lists::NoMemory;
use std::alloc::Global;
use std::process::Abort;
use std::test::Fail;

/// In what a pair writes an underscore is a space. `^` and `$` are anchors.
const AFF: &str = "REP 4\nREP y i\nREP d$ t\nREP ^alot$ a_lot\nREP e ee\n";

/// Each row is a word and the words that the pairs make of it, each with a comma behind it. By
/// hand: for each pair in the order of the file, at each place where its text stands, from the
/// front on, that text alone is replaced. So `y i` comes before `e ee`, which stands further in
/// front in `servyz`, and `e ee` makes one word of `beel` at two places. `d$` stands at the end of
/// a word alone, and `^alot$` is all of it. No text stands in a word without characters.
const WORDS: &str = "servyz=serviz,seervyz,
vyzser=vizser,vyzseer,
dyd=did,dyt,
band=bant,
ndba=
beel=beeel,beeel,
alot=a lot,
alota=
salot=
=";

fn variants_told(alloc: Global, reps: &[Rep], word: &str) -> Result<String, NoMemory> {
    let word = chars_of(alloc, word)?;
    let variants = rep_variants(alloc, reps, &word)?;
    words_told(alloc, &variants)
}

fn assert_variants(rt: &impl Abort, alloc: Global, reps: &[Rep]) -> Result<(), Fail> {
    for row in WORDS.split('\n') {
        let (word, want) = row.split_once('=').unwrap_or((row, "no row"));
        assert_eq!(rt; variants_told(alloc, reps, word)?.as_str(), want, "{word}");
    }
    Ok(())
}

#[test]
fn misspellings_stand_for_words(rt: HostRuntime) -> Result<(), Fail> {
    let affixes = affixes_of(rt.alloc(), AFF)?;
    assert_variants(&rt, rt.alloc(), &affixes.reps)
}
