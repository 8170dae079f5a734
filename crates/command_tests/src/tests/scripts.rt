//! Scripts: what no clause says, that the definitions mean what they should, and that calls succeed.

use std::alloc::{AllocError, Global};
use std::test::Fail;
use team_script::*;

/// Each row has a script, in which a bar stands for a line feed and `!` for a byte that no text
/// has. Behind `=>` stands its fault, or what it says: its lines in square brackets, its pairs in
/// round ones, and in braces what each of its sessions is told.
const SCRIPTS: &str = "=>
\u{feff}=>
|=>
|  |\t|\t \t|=>
1 show|=>[1 show]{1[show]}
1 show=>[1 show]{1[show]}
1=>[1 ]{1[]}
1 =>[1 ]{1[]}
01 show|1 quit|=>[1 show][1 quit]{1[show][quit]}
2 ins 1  a |=>[2 ins 1  a ]{2[ins 1  a ]}
5 say größe|=>[5 say größe]{5[say größe]}
3 show\r|\r|16 quit\r=>[3 show][16 quit]{3[show]}{16[quit]}
3 show\r\r|=>[3 show\r]{3[show\r]}
\u{feff}1 show|=>[1 show]{1[show]}
\u{feff}|2 a=>[2 a]{2[a]}
2 a|1 b|2 c||1 d=>[2 a][1 b][2 c][1 d]{1[b][d]}{2[a][c]}
1 show|\u{feff}2 show=>bad 2
17 show=>bad 1
0 show=>bad 1
001 show=>bad 1
show=>bad 1
 1 show=>bad 1
1\tshow=>bad 1
1 a||# b|2 c|x=>bad 3
1 a|2 !|3 x|y=>bad 2
1 a|x|1 !=>bad 2
!=>bad 1
1 a|!|=>bad 2
1 load a b|=>[1 load a b](a b){1[load a b]}
1 load a b|1 load a b|2 load a b=>[1 load a b][1 load a b][2 load a b](a b){1[load a b][load a b]}{2[load a b]}
1 load b a|1 load a b=>[1 load b a][1 load a b](b a)(a b){1[load b a][load a b]}
1 load ab c|1 load a bc=>[1 load ab c][1 load a bc](ab c)(a bc){1[load ab c][load a bc]}
1 load a|1 load a  b|1  load a b|1 load a b c|1 Load a b=>[1 load a][1 load a  b][1  load a b][1 load a b c][1 Load a b]{1[load a][load a  b][ load a b][load a b c][Load a b]}
1 load a b|1 quit|1 load c d=>[1 load a b][1 quit][1 load c d](a b)(c d){1[load a b][quit][load c d]}
1 load a a|2 load b b|1 load a a|3 load c c|1 load d d|9 load b b=>[1 load a a][2 load b b][1 load a a][3 load c c][1 load d d][9 load b b](a a)(b b)(c c)(d d){1[load a a][load a a][load d d]}{2[load b b]}{3[load c c]}{9[load b b]}
1 load a a|1 load a b|1 load a c|1 load b a|1 load c a=>many
1 load a a|2 load b b|2 quit|2 load c c|3 load d d|3 load a a|2 load e e=>many
1 load a a|1 load a b|1 load a c|1 load b a|1 load c a|17 a=>bad 6
1 load a a|1 load a b|1 load a c|1 load b a|1 load c a|1 !=>bad 6
";

/// Each row has how many bytes `x` a text has, and what stands before and behind these bytes. The
/// second ends at `=>`, behind which stands what is read: a fault, or the bytes of each line's text.
const LONG_LINES: &str = "131072 1 ==>131072
131073 1 ==>long
131072 16 =\r|1 a=>131072 1
131073 1 a|16 =\r|1 a=>long
131072 016 ==>bad 1
131073 1 =|17 a=>bad 2
131073 1 =!=>bad 1
131073 1 load a a|1 load b b|1 load c c|1 load d d|1 load e e|2 ==>long
131072 1 load a a|1 load b b|1 load c c|1 load d d|1 load e e|2 ==>many
";

fn bytes_of(alloc: Global, text: &str) -> Result<Vec<u8>, AllocError> {
    let mut bytes = Vec::new(alloc);
    for byte in text.bytes() {
        bytes.push(match byte {
            b'|' => b'\n',
            b'!' => 0xff,
            other => other,
        })?;
    }
    Ok(bytes)
}

fn told(alloc: Global, script: &Script, session: u32) -> Result<String, AllocError> {
    let mut told = format!(in alloc; "{{{session}")?;
    let Ok(texts) = script.lines_of(alloc, session) else {
        return Err(AllocError);
    };
    for text in &texts {
        told.push('[')?;
        told.push_str(text)?;
        told.push(']')?;
    }
    told.push('}')?;
    Ok(told)
}

fn shown(alloc: Global, script: &Script) -> Result<String, AllocError> {
    let mut shown = String::new(alloc);
    for line in script.lines() {
        write!(shown, "[{} {}]", line.session, line.text.as_str())?;
    }
    for pair in script.pairs() {
        write!(shown, "({} {})", pair.aff.as_str(), pair.dic.as_str())?;
    }
    for session in 0..=17u32 {
        if script.has(session) {
            shown.push_str(told(alloc, script, session)?.as_str())?;
        }
    }
    Ok(shown)
}

fn fault(alloc: Global, fault: ScriptFault) -> Result<String, AllocError> {
    match fault {
        ScriptFault::Bad { line } => format!(in alloc; "bad {line}"),
        ScriptFault::LongLine => format!(in alloc; "long"),
        ScriptFault::ManyPairs => format!(in alloc; "many"),
        ScriptFault::NoMemory => Err(AllocError),
    }
}

fn read_as(alloc: Global, text: &str) -> Result<String, AllocError> {
    match read_script(alloc, bytes_of(alloc, text)?.as_slice()) {
        Ok(script) => shown(alloc, &script),
        Err(told) => fault(alloc, told),
    }
}

#[test]
fn reads_what_is_wanted(rt: HostRuntime) -> Result<(), Fail> {
    let alloc = rt.alloc();
    let mut rows = 0u32;
    for row in SCRIPTS.lines() {
        let (script, want) = row.split_once("=>").unwrap_or((row, ""));
        let read = read_as(alloc, script)?;
        assert_eq!(rt; read.as_str(), want, "{script}");
        rows = rows.wrapping_add(1);
    }
    assert_eq!(rt; rows, 39);
    Ok(())
}

fn lengths(alloc: Global, script: &Script) -> Result<String, AllocError> {
    let mut lengths = String::new(alloc);
    for line in script.lines() {
        if !lengths.as_str().is_empty() {
            lengths.push(' ')?;
        }
        write!(lengths, "{}", line.text.as_str().len())?;
    }
    Ok(lengths)
}

fn long_read_as(
    alloc: Global,
    size: usize,
    before: &str,
    behind: &str,
) -> Result<String, AllocError> {
    let mut bytes = bytes_of(alloc, before)?;
    for _ in 0..size {
        bytes.push(b'x')?;
    }
    bytes.extend_from_slice(bytes_of(alloc, behind)?.as_slice())?;
    match read_script(alloc, bytes.as_slice()) {
        Ok(script) => lengths(alloc, &script),
        Err(told) => fault(alloc, told),
    }
}

#[test]
fn reads_long_lines_as_is_wanted(rt: HostRuntime) -> Result<(), Fail> {
    let alloc = rt.alloc();
    let mut rows = 0u32;
    for row in LONG_LINES.lines() {
        let (line, want) = row.split_once("=>").unwrap_or((row, ""));
        let (size, line) = line.split_once(' ').unwrap_or((line, ""));
        let (before, behind) = line.split_once('=').unwrap_or((line, ""));
        let read = long_read_as(alloc, size.parse().unwrap_or(0), before, behind)?;
        assert_eq!(rt; read.as_str(), want, "{row}");
        rows = rows.wrapping_add(1);
    }
    assert_eq!(rt; rows, 9);
    Ok(())
}
