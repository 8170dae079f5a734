//! CHECKSHARPS: all spellings that a written word covers, where a run tells only whether one of
//! them is right.

use super::dictionaries::words_told;
use letter_case::covered;
use mark_types::spell_types::chars_of;
use outside::lists::NoMemory;
use std::alloc::Global;
use std::process::Abort;
use std::test::Fail;

/// Each row is a word and how many it covers: where SS may stand for ß, and where it may not. By
/// hand: a word in capitals covers itself, and itself with the first character lowered, with all
/// lowered, and with all but the first. Of five pairs behind the first character there are 31
/// choices of some, each with that character lowered and as it is: 66 words. A sixth pair is never
/// chosen. A pair at the front leaves no first character where it is chosen, so that only 15
/// choices keep it. A small letter leaves the word alone, or the lowered first character.
const COUNTS: &str = "ASSASSASSASSASSA=66 4
ASSASSASSASSASSASSA=66 4
SSASSASSASSASSA=50 4
ASS=6 4
SS=5 4
SSS=5 4
SSSS=8 4
A=2 2
Ass=2 2
ass=1 1
ASSe=2 2
=1 1";

/// Each row is a word and those that it covers where SS may stand for ß, in their order.
const SPELLINGS: &str = "ASS=ASS,aSS,ass,Ass,a\u{df},A\u{df},
SSS=SSS,sSS,sss,Sss,\u{df}s,
SSSS=SSSS,sSSS,ssss,Ssss,\u{df}\u{df},\u{df}ss,ss\u{df},Ss\u{df},
Ass=Ass,ass,";

fn spellings_told(alloc: Global, word: &str) -> Result<String, NoMemory> {
    let word = chars_of(alloc, word)?;
    let found = covered(alloc, &word, true)?;
    words_told(alloc, &found)
}

/// How many words a word covers, of which it is the first.
fn count_of(rt: &impl Abort, alloc: Global, word: &str, sharps: bool) -> Result<usize, Fail> {
    let written = chars_of(alloc, word)?;
    let found = covered(alloc, &written, sharps)?;
    let is_first = match found.first() {
        None => false,
        Some(first) => first.as_slice() == written.as_slice(),
    };
    assert!(rt; is_first, "{word}");
    Ok(found.len())
}

fn counts_told(rt: &impl Abort, alloc: Global, word: &str) -> Result<String, Fail> {
    let with = count_of(rt, alloc, word, true)?;
    let without = count_of(rt, alloc, word, false)?;
    Ok(format!(in alloc; "{with} {without}")?)
}

#[test]
fn pairs_of_capitals_stand_for_sharps(rt: HostRuntime) -> Result<(), Fail> {
    for row in COUNTS.split('\n') {
        let (word, want) = row.split_once('=').unwrap_or((row, "no row"));
        assert_eq!(rt;
            counts_told(&rt, rt.alloc(), word)?.as_str(),
            want,
            "{word}"
        );
    }
    Ok(())
}

#[test]
fn spellings_come_in_order(rt: HostRuntime) -> Result<(), Fail> {
    for row in SPELLINGS.split('\n') {
        let (word, want) = row.split_once('=').unwrap_or((row, "no row"));
        assert_eq!(rt; spellings_told(rt.alloc(), word)?.as_str(), want, "{word}");
    }
    Ok(())
}
