//! Commands and replies: what no clause says, that the definitions mean what they should, and that calls
//! succeed.

use aff_lines::AffWhy;
use console_lang::*;
use dic_reader::DicWhy;
use mark_types::lists::Items;
use mark_types::text_lines::Text;
use mark_types::{Mark, Marks};
use personal_words::OwnLineWhy;
use std::alloc::{AllocError, Global};
use std::process::Abort;
use std::test::Fail;

/// Lines, and what each is read as; a text stands in brackets.
const LINES: &str = "ins 1 some text=>ins 1 [some text]
ins 1 =>ins 1 []
ins 1=>ins 1 []
ins 1  x =>ins 1 [ x ]
ins 0 x=>ins 0 [x]
ins 999999999 x=>ins 999999999 [x]
ins 000000001 x=>ins 1 [x]
ins 1000000000 x=>bad
ins 0000000001 x=>bad
ins +1 x=>bad
ins x=>bad
ins =>bad
ins=>bad
ins  1 x=>bad
 ins 1 x=>bad
Ins 1 x=>bad
put 2 a b  c=>put 2 [a b  c]
put 2 =>put 2 []
put 2=>put 2 []
sub 3 1 2 x y=>sub 3 1 2 [x y]
sub 3 1 2 =>sub 3 1 2 []
sub 3 1 2=>sub 3 1 2 []
sub 3 1 =>bad
sub 3 1=>bad
sub 3 1 1000000000 x=>bad
del 4=>del 4
del 4 =>bad
del 0000000004=>bad
del=>bad
load a.aff b.dic=>load [a.aff] [b.dic]
load a\tb c=>load [a\tb] [c]
load a=>bad
load a =>bad
load  a=>bad
load a  b=>bad
load a b =>bad
load a b c=>bad
own word=>own [word]
own two words/a model =>own [two words/a model ]
own  x=>own [ x]
own =>own []
own=>own []
own\tx=>bad
stop 5=>stop 5
stop 5 =>bad
ask 999999999=>ask 999999999
ask 5 x=>bad
show=>show
show =>bad
settle=>settle
settle 1=>bad
quit=>quit
quit =>bad
\tquit=>bad
=>blank
 =>blank
\t\t=>blank
\t \t=>blank
# x=>bad
";

/// Lines of scripts, and what each is read as; a text stands in brackets.
const SCRIPT_LINES: &str = "1 ins 1 some text=>1 [ins 1 some text]
1 =>1 []
1=>1 []
16 quit=>16 [quit]
9 xyz=>9 [xyz]
10 xyz=>10 [xyz]
04 x=>4 [x]
01=>1 []
4  x =>4 [ x ]
4 \tx=>4 [\tx]
4   =>4 [  ]
2 größe=>2 [größe]
0 x=>bad
00 x=>bad
17 x=>bad
99 x=>bad
016 x=>bad
004 x=>bad
016=>bad
100 x=>bad
4294967297 x=>bad
+4 x=>bad
+4=>bad
-4 x=>bad
 4 x=>bad
\t4 x=>bad
4\tx=>bad
4\t=>bad
4x=>bad
x 4=>bad
٤ x=>bad
# x=>bad
=>blank
 =>blank
   =>blank
\t=>blank
\t \t=>blank
";

/// What all replies write, one after another.
const REPLIES: &str = "ok 0
dict 18446744073709551615
text 2 dict 1
1 6 11 wrold
1 12 18 größe
3 ?
.
text 0 dict 0
.
no Command
no Place 2
no Gone
no Behind 5
no BadSpan 7
no TooLong 65537
no Full 20000
no Finished
no Parked
no NotParked
no Missing
no aff 3 BadFlag
no dic 1 BadCount
no own EmptyWord
no own TooMany
no Files
no Large 16777216
";

fn shown(alloc: Global, read: Option<Command>) -> Result<String, AllocError> {
    match read {
        None => format!(in alloc; "blank"),
        Some(Command::Ins { place, text }) => {
            format!(in alloc; "ins {place} [{}]", text.as_str())
        }
        Some(Command::Put { place, text }) => {
            format!(in alloc; "put {place} [{}]", text.as_str())
        }
        Some(
            Command::Sub {
                place,
                from,
                to,
                text,
            },
        ) => format!(in alloc; "sub {place} {from} {to} [{}]", text.as_str()),
        Some(Command::Del { place }) => format!(in alloc; "del {place}"),
        Some(Command::Load { aff, dic }) => {
            format!(in alloc; "load [{}] [{}]", aff.as_str(), dic.as_str())
        }
        Some(Command::Own { text }) => format!(in alloc; "own [{}]", text.as_str()),
        Some(Command::Stop { place }) => format!(in alloc; "stop {place}"),
        Some(Command::Ask { place }) => format!(in alloc; "ask {place}"),
        Some(Command::Show) => format!(in alloc; "show"),
        Some(Command::Settle) => format!(in alloc; "settle"),
        Some(Command::Quit) => format!(in alloc; "quit"),
    }
}

fn read_as(alloc: Global, line: &str) -> Result<String, AllocError> {
    match read_command(alloc, line) {
        Ok(read) => shown(alloc, read),
        Err(CommandFault::BadCommand) => format!(in alloc; "bad"),
        Err(CommandFault::NoMemory) => Err(AllocError),
    }
}

#[test]
fn reads_what_is_wanted(rt: HostRuntime) -> Result<(), Fail> {
    let alloc = rt.alloc();
    let mut rows = 0u32;
    for row in LINES.lines() {
        let (line, want) = row.split_once("=>").unwrap_or((row, ""));
        let read = read_as(alloc, line)?;
        assert_eq!(rt; read.as_str(), want, "{line}");
        rows = rows.wrapping_add(1);
    }
    assert_eq!(rt; rows, 59);
    Ok(())
}

fn script_read_as(alloc: Global, line: &str) -> Result<String, AllocError> {
    match script_line(line) {
        ScriptLine::Blank => format!(in alloc; "blank"),
        ScriptLine::Of { session, text } => format!(in alloc; "{session} [{text}]"),
        ScriptLine::Bad => format!(in alloc; "bad"),
    }
}

#[test]
fn reads_scripts_as_is_wanted(rt: HostRuntime) -> Result<(), Fail> {
    let alloc = rt.alloc();
    let mut rows = 0u32;
    for row in SCRIPT_LINES.lines() {
        let (line, want) = row.split_once("=>").unwrap_or((row, ""));
        let read = script_read_as(alloc, line)?;
        assert_eq!(rt; read.as_str(), want, "{line}");
        rows = rows.wrapping_add(1);
    }
    assert_eq!(rt; rows, 37);
    Ok(())
}

fn mark(
    alloc: Global,
    from: u32,
    to: u32,
    word: &str,
) -> Result<Mark, mark_types::lists::NoMemory> {
    Ok(Mark {
        from,
        to,
        word: Text::from_str(alloc, word)?,
    })
}

/// A paragraph with marks, one without, and one that is not checked.
fn paragraphs(alloc: Global) -> Result<Items<ShownPara>, mark_types::lists::NoMemory> {
    let mut marks = Marks::new(alloc);
    marks.push(mark(alloc, 6, 11, "wrold")?)?;
    marks.push(mark(alloc, 12, 18, "größe")?)?;
    let mut paragraphs = Items::new(alloc);
    paragraphs.push(ShownPara::Finished(marks))?;
    paragraphs.push(ShownPara::Finished(Marks::new(alloc)))?;
    paragraphs.push(ShownPara::Pending)?;
    Ok(paragraphs)
}

fn replies(alloc: Global) -> Result<Items<Reply>, mark_types::lists::NoMemory> {
    let mut replies = Items::new(alloc);
    replies.push(Reply::Done { text: 0 })?;
    replies.push(Reply::Dict { dict: u64::MAX })?;
    replies.push(Reply::Shown {
        text: 2,
        dict: 1,
        paragraphs: paragraphs(alloc)?,
    })?;
    replies.push(Reply::Shown {
        text: 0,
        dict: 0,
        paragraphs: Items::new(alloc),
    })?;
    replies.push(Reply::NoCommand)?;
    replies.push(Reply::NoPlace { count: 2 })?;
    replies.push(Reply::NoGone)?;
    replies.push(Reply::NoBehind { rev: 5 })?;
    replies.push(Reply::NoBadSpan { length: 7 })?;
    replies.push(Reply::NoTooLong { would: 65537 })?;
    replies.push(Reply::NoFull { count: 20000 })?;
    replies.push(Reply::NoFinished)?;
    replies.push(Reply::NoParked)?;
    replies.push(Reply::NoNotParked)?;
    replies.push(Reply::NoMissing)?;
    replies.push(Reply::NoAff {
        line: 3,
        why: AffWhy::BadFlag,
    })?;
    replies.push(Reply::NoDic {
        line: 1,
        why: DicWhy::BadCount,
    })?;
    replies.push(Reply::NoOwn {
        why: OwnLineWhy::EmptyWord,
    })?;
    replies.push(Reply::NoOwn {
        why: OwnLineWhy::TooMany,
    })?;
    replies.push(Reply::NoFiles)?;
    replies.push(Reply::NoLarge)?;
    Ok(replies)
}

#[test]
fn writes_what_is_wanted(rt: HostRuntime) -> Result<(), Fail> {
    let alloc = rt.alloc();
    let mut written = String::new(alloc);
    let replies = replies(alloc)?;
    for reply in replies.as_slice() {
        written.push_str(write_reply(alloc, reply)?.as_str())?;
    }
    assert_eq!(rt; written.as_str(), REPLIES);
    Ok(())
}
