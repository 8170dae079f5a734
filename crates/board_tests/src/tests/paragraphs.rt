//! Edits of paragraphs: what no clause says, that the definitions mean what they should, and that calls
//! succeed.

ghost use Rattle.std.specs.Prelude.{IfOk};
ghost use Rattle.paragraph_text.specs.Paragraphs.{HaveOwnIds};

use mark_types::lists::{Copied, NoMemory};
use mark_types::text_lines::Text;
use paragraph_text::*;
use std::alloc::{AllocError, Global};
use std::process::Abort;
use std::test::Fail;

/// Each row has how many paragraphs there are, all `hé`, three bytes; edits, the first of which
/// makes version 1; a place; and what stands before it, there and behind it afterwards, or why the
/// last edit is refused. In texts a slash is a line feed, and `N*` says how often.
const EDITS: &str = "
1|put 0 0 0 3 a|0|- 0.1.a -
1|ins 0 a|0|- 1.1.a 0.0.hé
1|ins - a|1|0.0.hé 1.1.a -
1|del 0 0|0|- - -
1|del 0 0;ins - a;del 1 2|0|- - -
64|put 0 0 1 3 e|0|- 0.1.he 1.0.hé
64|put 63 0 3 3 !|63|62.0.hé 63.1.hé! -
64|ins 0 a|0|- 64.1.a 0.0.hé
64|ins 32 a|32|31.0.hé 64.1.a 32.0.hé
64|ins 32 a|64|62.0.hé 63.0.hé -
64|ins - a|64|63.0.hé 64.1.a -
64|del 63 0|63|62.0.hé - -
65|put 64 0 0 1 |64|63.0.hé 64.1.é -
65|del 64 0|64|63.0.hé - -
65|del 64 0;ins - a|64|63.0.hé 65.2.a -
65|ins 64 a|64|63.0.hé 65.1.a 64.0.hé
65|ins 63 a|63|62.0.hé 65.1.a 63.0.hé
4097|put 0 0 0 0 a|0|- 0.1.ahé 1.0.hé
4097|put 2048 0 0 3 |2048|2047.0.hé 2048.1. 2049.0.hé
4097|put 4096 0 0 3 a|4096|4095.0.hé 4096.1.a -
4097|ins 0 a;ins 0 b;ins 0 c|2|4098.2.b 4099.3.c 0.0.hé
4097|ins 2049 a|2049|2048.0.hé 4097.1.a 2049.0.hé
4097|ins 2049 a|4097|4095.0.hé 4096.0.hé -
4097|ins - a|4097|4096.0.hé 4097.1.a -
4097|del 2048 0|2048|2047.0.hé 2049.0.hé 2050.0.hé
4097|del 4096 0|4096|4095.0.hé - -
4097|del 0 0|0|- 1.0.hé 2.0.hé
2|put 0 0 0 3 65536*x|0|- 0.1.65536 1.0.hé
2|put 0 0 0 0 65533*x|0|- 0.1.65536 1.0.hé
2|put 0 0 0 0 a;put 0 1 0 4 b|0|- 0.2.b 1.0.hé
2|put 2 0 0 3 x|0|Gone 2
2|put 2 1 0 3 x|0|Gone 2
2|put 2 0 2 1 x|0|Gone 2
2|put 2 0 0 3 /|0|Gone 2
2|put 2 0 0 3 65537*x|0|Gone 2
2|put 2 1 2 1 65537*/|0|Gone 2
2|del 0 0;put 0 0 0 3 x|0|Gone 0
2|put 1 1 0 3 x|0|Behind 0
2|put 0 0 0 0 a;put 0 0 0 0 b|0|Behind 1
2|put 1 1 2 1 x|0|Behind 0
2|put 1 1 0 3 /|0|Behind 0
2|put 1 1 0 3 65537*x|0|Behind 0
2|put 1 1 2 1 65537*/|0|Behind 0
2|put 1 0 2 3 x|0|BadSpan 3
2|put 1 0 1 2 x|0|BadSpan 3
2|put 1 0 0 4 x|0|BadSpan 3
2|put 1 0 3 1 x|0|BadSpan 3
2|put 1 0 2 1 /|0|BadSpan 3
2|put 1 0 0 4 65537*x|0|BadSpan 3
2|put 1 0 2 1 65537*/|0|BadSpan 3
2|put 1 0 0 3 a/b/|0|HasBreak 1
2|put 1 0 0 3 65537*/|0|HasBreak 0
2|put 1 0 0 0 65534*x|0|TooLong 65537
2|put 1 0 0 3 65537*x|0|TooLong 65537
2|ins 2 x|0|Gone 2
2|ins 2 /|0|Gone 2
2|ins 2 65537*x|0|Gone 2
2|ins 1 a/b/|0|HasBreak 1
2|ins 1 65537*/|0|HasBreak 0
2|ins 1 65537*x|0|TooLong 65537
2|del 2 0|0|Gone 2
2|del 2 1|0|Gone 2
2|del 0 0;del 0 0|0|Gone 0
2|del 1 1|0|Behind 0
2|put 0 0 0 0 a;del 0 0|0|Behind 1
20000|ins 20000 x|0|Gone 20000
20000|ins 20000 65537*/|0|Gone 20000
20000|ins - a/|0|HasBreak 1
20000|ins - 65537*/|0|HasBreak 0
20000|ins - 65537*x|0|TooLong 65537
20000|ins - x|0|Full 20000
20000|ins 7 65536*x|0|Full 20000
20000|put 19999 0 0 3 a|19999|19998.0.hé 19999.1.a -
19999|ins 7 65536*x|7|6.0.hé 19999.1.65536 7.0.hé
";

fn number(written: &str) -> u64 {
    written.parse().unwrap_or(0)
}

/// `a` is itself, `a/` has a line feed, and `3*a` is `aaa`.
fn text_of(alloc: Global, written: &str) -> Result<Text, NoMemory> {
    let (count, piece) = written.split_once('*').unwrap_or(("1", written));
    let mut made = String::new(alloc);
    for _ in 0..number(count) {
        for c in piece.chars() {
            made.push(if c == '/' { '\n' } else { c })?;
        }
    }
    Text::from_str(alloc, made.as_str())
}

fn word<'a>(line: &'a str, place: usize) -> &'a str {
    line.split(' ').nth(place).unwrap_or("")
}

fn edit_of(alloc: Global, line: &str) -> Result<Edit, NoMemory> {
    match word(line, 0) {
        "put" => Ok(Edit::Replace {
            id: number(word(line, 1)),
            rev: number(word(line, 2)),
            from: word(line, 3).parse().unwrap_or(0),
            to: word(line, 4).parse().unwrap_or(0),
            text: text_of(alloc, word(line, 5))?,
        }),
        "ins" => Ok(Edit::Insert {
            before: word(line, 1).parse().ok(),
            text: text_of(alloc, word(line, 2))?,
        }),
        _ => Ok(Edit::Remove {
            id: number(word(line, 1)),
            rev: number(word(line, 2)),
        }),
    }
}

fn told(alloc: Global, refusal: EditRefusal) -> Result<String, AllocError> {
    match refusal {
        EditRefusal::Gone { id } => format!(in alloc; "Gone {id}"),
        EditRefusal::Behind { rev } => format!(in alloc; "Behind {rev}"),
        EditRefusal::BadSpan { length } => format!(in alloc; "BadSpan {length}"),
        EditRefusal::HasBreak { at } => format!(in alloc; "HasBreak {at}"),
        EditRefusal::TooLong { would } => format!(in alloc; "TooLong {would}"),
        EditRefusal::Full { count } => format!(in alloc; "Full {count}"),
        EditRefusal::NoMemory => format!(in alloc; "NoMemory"),
    }
}

/// A paragraph by its id, its rev and its text, or of a long text its length.
fn shown(alloc: Global, para: Option<&Para>) -> Result<String, AllocError> {
    let Some(para) = para else {
        return format!(in alloc; "-");
    };
    let text = para.text.as_str();
    if text.len() < 10 {
        format!(in alloc; "{}.{}.{text}", para.id, para.rev)
    } else {
        format!(in alloc; "{}.{}.{}", para.id, para.rev, text.len())
    }
}

fn shown_around(
    alloc: Global,
    paragraphs: &Paragraphs,
    place: usize,
) -> Result<String, AllocError> {
    let before = shown(alloc, paragraphs.get(place.wrapping_sub(1)))?;
    let here = shown(alloc, paragraphs.get(place))?;
    let behind = shown(alloc, paragraphs.get(place.wrapping_add(1)))?;
    format!(in alloc; "{before} {here} {behind}")
}

#[tactic(auto, using(paragraph_text::proofs::Kept::numbered_own))]
fn opening(alloc: Global, count: u64) -> Result<Paragraphs, NoMemory>
    ensures { IfOk result HaveOwnIds }
{
    let mut texts = Vec::new(alloc);
    for _ in 0..count {
        texts.push(Text::from_str(alloc, "hé")?)?;
    }
    Paragraphs::from_texts(alloc, texts)
}

/// The list that edits make, of which the first that is refused is told.
fn edited(alloc: Global, count: u64, edits: &str) -> Result<Paragraphs, EditRefusal> {
    let mut paragraphs = opening(alloc, count)?;
    let mut version = 0u64;
    let mut next_id = count;
    for line in edits.split(';') {
        version = version.wrapping_add(1);
        let edit = edit_of(alloc, line)?;
        paragraphs = apply(alloc, &paragraphs, version, next_id, &edit)?;
        if word(line, 0) == "ins" {
            next_id = next_id.wrapping_add(1);
        }
    }
    Ok(paragraphs.copy(alloc)?)
}

fn outcome(alloc: Global, count: u64, edits: &str, place: usize) -> Result<String, AllocError> {
    match edited(alloc, count, edits) {
        Ok(paragraphs) => shown_around(alloc, &paragraphs, place),
        Err(refusal) => told(alloc, refusal),
    }
}

#[test]
fn edits_make_what_is_wanted(rt: HostRuntime) -> Result<(), Fail> {
    let alloc = rt.alloc();
    let mut rows = 0u32;
    for row in EDITS.lines().skip(1) {
        let mut fields = row.split('|');
        let count = number(fields.next().unwrap_or(""));
        let edits = fields.next().unwrap_or("");
        let place = fields.next().unwrap_or("").parse().unwrap_or(0);
        let wanted = fields.next().unwrap_or("");
        let made = outcome(alloc, count, edits, place)?;
        assert_eq!(rt; made.as_str(), wanted, "{row}");
        rows = rows.wrapping_add(1);
    }
    assert_eq!(rt; rows, 74);
    Ok(())
}

/// The list with a paragraph put before its first, whose id is one less. The version is one more
/// than the id.
fn with_front(alloc: Global, paragraphs: &Paragraphs, id: u64) -> Result<Paragraphs, EditRefusal> {
    let edit = Edit::Insert {
        before: id.checked_sub(1),
        text: Text::from_str(alloc, "hé")?,
    };
    apply(alloc, paragraphs, id.wrapping_add(1), id, &edit)
}

/// The list without a paragraph that was put in so.
fn without(alloc: Global, paragraphs: &Paragraphs, id: u64) -> Result<Paragraphs, EditRefusal> {
    let edit = Edit::Remove {
        id,
        rev: id.wrapping_add(1),
    };
    apply(alloc, paragraphs, 0, 0, &edit)
}

/// How long a list is after so many inserts, each at its front, and then after a removal of each,
/// the last one first.
fn lengths(alloc: Global, count: u64) -> Result<(usize, usize), EditRefusal> {
    let mut paragraphs = opening(alloc, 0)?;
    for id in 0..count {
        paragraphs = with_front(alloc, &paragraphs, id)?;
    }
    let most = paragraphs.len();
    for id in 0..count {
        paragraphs = without(alloc, &paragraphs, id)?;
    }
    Ok((most, paragraphs.len()))
}

#[test]
fn edits_follow_one_another(rt: HostRuntime) -> Result<(), Fail> {
    assert_eq!(rt; lengths(rt.alloc(), 20_000), Ok((20_000, 0)));
    Ok(())
}

/// Each row has an edit of four paragraphs, all `hé`, as those above, and what comes of it,
/// whatever place is looked at first.
const EDITS_NEAR: &str = "
put 2 0 0 3 a|2|1.0.hé 2.1.a 3.0.hé
ins 2 a|2|1.0.hé 4.1.a 2.0.hé
ins - a|4|3.0.hé 4.1.a -
del 2 0|2|1.0.hé 3.0.hé -
put 4 0 0 3 a|0|Gone 4
put 2 1 0 3 a|0|Behind 0
";

fn edited_near(alloc: Global, edit: &str, near: usize) -> Result<Paragraphs, EditRefusal> {
    let paragraphs = opening(alloc, 4)?;
    let edit = edit_of(alloc, edit)?;
    apply_near(alloc, &paragraphs, 1, 4, &edit, near)
}

fn outcome_near(
    alloc: Global,
    edit: &str,
    near: usize,
    place: usize,
) -> Result<String, AllocError> {
    match edited_near(alloc, edit, near) {
        Ok(paragraphs) => shown_around(alloc, &paragraphs, place),
        Err(refusal) => told(alloc, refusal),
    }
}

#[test]
fn a_hint_changes_no_edit(rt: HostRuntime) -> Result<(), Fail> {
    let alloc = rt.alloc();
    for row in EDITS_NEAR.lines().skip(1) {
        let mut fields = row.split('|');
        let edit = fields.next().unwrap_or("");
        let place = fields.next().unwrap_or("").parse().unwrap_or(0);
        let wanted = fields.next().unwrap_or("");
        for near in 0..6 {
            let made = outcome_near(alloc, edit, near, place)?;
            assert_eq!(rt; made.as_str(), wanted, "{row} near {near}");
        }
    }
    Ok(())
}

fn place_near(alloc: Global, count: u64, id: u64, near: usize) -> Result<Option<usize>, NoMemory> {
    Ok(opening(alloc, count)?.place_near(id, near))
}

/// Of four paragraphs, and of so many that most places are far from the one that is guessed.
#[test]
fn a_hint_changes_no_place(rt: HostRuntime) -> Result<(), Fail> {
    let alloc = rt.alloc();
    for near in 0..6 {
        assert_eq!(rt; place_near(alloc, 4, 2, near), Ok(Some(2)));
        assert_eq!(rt; place_near(alloc, 4, 4, near), Ok(None));
    }
    for near in [
        0,
        17,
        18,
        49,
        50,
        51,
        81,
        82,
        83,
        199,
        200,
        1000,
        usize::MAX,
    ] {
        assert_eq!(rt; place_near(alloc, 200, 50, near), Ok(Some(50)));
        assert_eq!(rt; place_near(alloc, 200, 200, near), Ok(None));
    }
    Ok(())
}
