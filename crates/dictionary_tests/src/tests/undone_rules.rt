//! PFX and SFX: the words that a rule was attached to.

use super::dictionaries::{affixes_of, text_of};
use affix_classes::{undo_prefix, undo_suffix};
use mark_types::spell_types::{Chars, Rule, Side, chars_of};
use outside::lists::NoMemory;
use std::alloc::Global;
use std::process::Abort;
use std::test::Fail;

/// The rules have the places 0 for `re`, 1 for `ed`, 2 for `ied`, 3 for `went` and 4 for `und`.
const AFF: &str =
    "PFX A Y 1\nPFX A 0 re .\nSFX B Y 2\nSFX B 0 ed [^y]\nSFX B y ied y\nSFX W Y 1\nSFX W go went go\n\
    PFX D Y 1\nPFX D d und do\n";

/// Each row is the place of a rule, a word, and the word that the rule was attached to, or `?`
/// where there is none. By hand: the word begins, or ends, with what the rule adds. What it strips
/// off stands there before, and then the condition fits. So `tryed` is of no word, as `try` ends
/// with a `y`, and `tried` is of `tri` by one rule and of `try` by the other. Something of the word
/// is left between, which is not so of `re` and `went`.
const STEMS: &str = "0 rework=work
0 work=?
0 re=?
1 worked=work
1 tryed=?
1 tried=tri
1 ed=?
2 tried=try
2 worked=?
3 xwent=xgo
3 went=?
4 undo=do
4 undx=?";

/// The same where a rule may strip off a whole word. Then `went` is of `go`, and `re` of the word
/// without characters, on which no condition is asked; that of `ed` asks for a character.
const WHOLE_STEMS: &str = "0 rework=work
0 re=
1 ed=?
3 went=go
3 xwent=xgo";

fn undone(
    alloc: Global,
    rule: &Rule,
    full_strip: bool,
    word: &[char],
) -> Result<Option<Chars>, NoMemory> {
    match rule.side {
        Side::Prefix => undo_prefix(alloc, rule, full_strip, word),
        Side::Suffix => undo_suffix(alloc, rule, full_strip, word),
    }
}

/// The word that a rule was attached to, or `?` where there is none.
fn told(alloc: Global, rule: &Rule, full_strip: bool, word: &str) -> Result<String, NoMemory> {
    let word = chars_of(alloc, word)?;
    match undone(alloc, rule, full_strip, &word)? {
        None => Ok(String::from_str(alloc, "?")?),
        Some(stem) => Ok(text_of(alloc, &stem)?),
    }
}

/// What is told of a row: the place of a rule, and a word. There is such a rule.
fn row_told(
    alloc: Global,
    rules: &[Rule],
    full_strip: bool,
    row: &str,
) -> Result<String, NoMemory> {
    let (place, word) = row.split_once(' ').unwrap_or((row, ""));
    match rules.get(place.parse::<usize>().unwrap_or(usize::MAX)) {
        None => Ok(String::from_str(alloc, "no rule")?),
        Some(rule) => told(alloc, rule, full_strip, word),
    }
}

fn assert_stems(
    rt: &impl Abort,
    alloc: Global,
    rules: &[Rule],
    full_strip: bool,
    rows: &str,
) -> Result<(), Fail> {
    for row in rows.split('\n') {
        let (asked, want) = row.split_once('=').unwrap_or((row, "no row"));
        assert_eq!(rt;
            row_told(alloc, rules, full_strip, asked)?.as_str(),
            want,
            "{asked}"
        );
    }
    Ok(())
}

fn assert_all_stems(rt: &impl Abort, alloc: Global, rules: &[Rule]) -> Result<(), Fail> {
    assert_stems(rt, alloc, rules, false, STEMS)?;
    assert_stems(rt, alloc, rules, true, WHOLE_STEMS)
}

#[test]
fn rules_are_undone(rt: HostRuntime) -> Result<(), Fail> {
    let affixes = affixes_of(rt.alloc(), AFF)?;
    assert_all_stems(&rt, rt.alloc(), &affixes.rules)
}
