//! Compound rules: what their texts are told to be in each type of flags, and which lists of flag
//! sets they match where they go over them from the front.

use compound_pattern::{States, read_pattern};
use mark_types::spell_types::{Flag, FlagKind, FlagSet, Pattern, PatternStep, Times};
use outside::lists::{Copied, NoMemory};
use std::alloc::{AllocError, Global};
use std::process::Abort;
use std::test::Fail;

/// Each row is a text, and behind it what is told of it where flags are characters, where they are
/// so in UTF-8, where they are pairs, and where they are numbers: the numbers of the flags, with
/// their signs, or the fault. The first text is empty.
const TEXTS: &str = " BadPattern BadPattern BadPattern BadPattern
* BadPattern BadPattern BadPattern BadPattern
*a BadPattern BadPattern BadPattern BadPattern
?(1) BadPattern BadPattern BadPattern BadPattern
a** BadPattern BadPattern BadPattern BadPattern
a*? BadPattern BadPattern BadPattern BadPattern
(1)?? BadPattern BadPattern BadPattern BadPattern
( BadPattern BadPattern BadPattern BadPattern
) BadPattern BadPattern BadPattern BadPattern
(a BadPattern BadPattern BadPattern BadPattern
(ab* BadPattern BadPattern BadPattern BadPattern
a) BadPattern BadPattern BadPattern BadPattern
(1)) BadPattern BadPattern BadPattern BadPattern
(()) BadPattern BadPattern BadPattern BadPattern
() BadFlag BadFlag BadFlag BadFlag
()* BadFlag BadFlag BadFlag BadFlag
()(1)? BadFlag BadFlag BadFlag BadFlag
()a) BadPattern BadPattern BadPattern BadPattern
()** BadPattern BadPattern BadPattern BadPattern
(1,2) BadFlag BadFlag BadFlag BadFlag
(1,)* BadFlag BadFlag 210453397548* BadFlag
(0)(65001) BadFlag BadFlag BadFlag BadFlag
(7) 55 55 BadFlag 7
(1)?(65000)* BadFlag BadFlag BadFlag 1?,65000*
(1)?(2)*(3) 49?,50*,51 49?,50*,51 BadFlag 1?,2*,3
(a)*b? 97*,98? 97*,98? BadPattern BadPattern
a?b*c 97?,98*,99 97?,98*,99 BadPattern BadPattern
n*1t 110*,49,116 110*,49,116 BadPattern BadPattern
(ab)*(ba) BadFlag BadFlag 416611827810*,420906795105 BadFlag
(ab)a BadFlag BadFlag BadPattern BadPattern
(abc) BadFlag BadFlag BadFlag BadFlag
(() 40 40 BadFlag BadFlag
(*)? 42? 42? BadFlag BadFlag
(*?)* BadFlag BadFlag 180388626495* BadFlag
\u{e4}*\u{1f600} 228*,128512 228*,128512 BadPattern BadPattern
(\u{e4}\u{1f600})? BadFlag BadFlag 979252672000? BadFlag
1,2 49,44,50 49,44,50 BadPattern BadPattern";

/// Each row is a rule, and behind it lists of flag sets and whether it matches them. A dash is a list
/// without sets, and a set between two commas has no flags. By hand: each set has the flag of the
/// step that stands for it, and may have others. So `n1` goes on from `n` or from `1`.
const LISTS: &str =
    "n*1t 1,t=yes n,1,t=yes n,n,1,t=yes t=no 1=no n,t=no n1,t=yes n1,1t,t=yes 1,1t=yes 1,1=no 1,t,t=no -=no
n*mp m,p=yes n,m,p=yes n,p=no ,m,p=no m,,p=no m,=no
a?b*c c=yes a,c=yes b,c=yes a,b,b,c=yes a,a,c=no ab,ab,c=yes a,b=no b,a,c=no =no
ab?c? a=yes a,b=yes a,c=yes a,b,c=yes a,c,b=no b,c=no -=no
a*b*c* -=yes =no a=yes c=yes a,a,b,c,c=yes b,a=no abc,abc,abc=yes c,abc=yes c,ab=no
abc a,b,c=yes a,b=no a,b,c,c=no abc,abc,abc=yes b,a,c=no -=no";

fn sign_of(times: Times) -> &'static str {
    match times {
        Times::Once => "",
        Times::Maybe => "?",
        Times::Many => "*",
    }
}

fn steps_told(alloc: Global, steps: &[PatternStep]) -> Result<String, AllocError> {
    let mut told = String::new(alloc);
    for step in steps {
        if !told.is_empty() {
            told.push(',')?;
        }
        let number = step.flag.0;
        let sign = sign_of(step.times);
        write!(told, "{number}{sign}")?;
    }
    Ok(told)
}

fn text_told(alloc: Global, kind: FlagKind, text: &str) -> Result<String, AllocError> {
    match read_pattern(alloc, kind, text) {
        Ok(pattern) => steps_told(alloc, pattern.as_slice()),
        Err(fault) => format!(in alloc; "{fault:?}"),
    }
}

fn assert_told(
    rt: &impl Abort,
    alloc: Global,
    kind: FlagKind,
    text: &str,
    want: &str,
) -> Result<(), AllocError> {
    let told = text_told(alloc, kind, text)?;
    assert_eq!(rt; told.as_str(), want, "{text}");
    Ok(())
}

fn assert_text(rt: &impl Abort, alloc: Global, row: &str) -> Result<(), AllocError> {
    let mut words = row.split(' ');
    let text = words.next().unwrap_or("");
    assert_told(
        rt,
        alloc,
        FlagKind::Single,
        text,
        words.next().unwrap_or(""),
    )?;
    assert_told(rt, alloc, FlagKind::Utf8, text, words.next().unwrap_or(""))?;
    assert_told(rt, alloc, FlagKind::Long, text, words.next().unwrap_or(""))?;
    assert_told(rt, alloc, FlagKind::Num, text, words.next().unwrap_or(""))
}

#[test]
fn reads_texts_of_rules(rt: HostRuntime) -> Result<(), Fail> {
    for row in TEXTS.split('\n') {
        assert_text(&rt, rt.alloc(), row)?;
    }
    Ok(())
}

/// The set of these flags, each of which is a character.
fn set_of(alloc: Global, flags: &str) -> Result<FlagSet, NoMemory> {
    let mut set = FlagSet::new(alloc);
    for c in flags.chars() {
        set.insert(Flag(u64::from(c)))?;
    }
    Ok(set)
}

/// Whether a rule matches the sets, by states that are copied before the first of them.
fn is_matched(alloc: Global, pattern: &Pattern, sets: &str) -> Result<bool, NoMemory> {
    let mut states = States::start(alloc, pattern)?.copy(alloc)?;
    for flags in sets.split(',').filter(|flags| *flags != "-") {
        states.advance(pattern, &set_of(alloc, flags)?);
    }
    Ok(states.accepting(pattern))
}

fn assert_rule(rt: &impl Abort, alloc: Global, rule: &str, row: &str) -> Result<(), Fail> {
    let pattern = read_pattern(alloc, FlagKind::Single, rule)?;
    for list in row.split(' ') {
        let (sets, want) = list.split_once('=').unwrap_or((list, "no row"));
        assert_eq!(rt;
            is_matched(alloc, &pattern, sets)?,
            want == "yes",
            "{rule} {list}"
        );
    }
    Ok(())
}

#[test]
fn matches_lists_of_sets(rt: HostRuntime) -> Result<(), Fail> {
    for row in LISTS.split('\n') {
        let (rule, lists) = row.split_once(' ').unwrap_or((row, ""));
        assert_rule(&rt, rt.alloc(), rule, lists)?;
    }
    Ok(())
}
