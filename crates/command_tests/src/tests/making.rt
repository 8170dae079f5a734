//! What is made to measure with: that the definitions mean what they should, and that calls succeed.

ghost use Rattle.std.specs.Prelude.{◌≤◌};

use std::process::Abort;
use std::test::Fail;
use work_maker::*;

/// Each row has a start and a size, how many bytes the .dic file and the text have, and how both
/// begin.
const MADE: &str = "||1 4 37 33=>4
bababa
bebaba/A
bibaba/B
bobaba/AB
=>bibaba rebebaben rebobaba bababa
||0 2 18 16=>2
bababa
bebaba/A
=>bebaba rebebaba
||18446744073709551615 3 27 28=>3
bababa
bebaba/A
bibaba/B
=>rebababen rebebaben bibaben
||7 11 98 93=>11
bababa
bebaba/A
bibaba/B
bobaba/AB
bubaba
dababa/A
debaba/B
dibaba/AB
dobaba
dubaba/A
fababa/B
=>dubaba rebibaba refababa rebubaben dobaba rebobaba dibaba rebobaba bubaben redibaben
dubaben
||9 50000 437506 425030=>50000
bababa
bebaba/A
bibaba/B
bobaba/AB
bubaba
=>fofuba renoridu kibube mugube regefadu mulagen mekuda nigofon tufebe lekabo
retemebon rokode tamogin regoniben bugugon retakiben rulibo relureben dirugen dulofon
";

/// A text of digits as a number that a size may be.
fn size_of(rt: &impl Abort, text: &str) -> u32
    ensures some { 1 ≤ result }
    ensures limited { result ≤ 50000 }
{
    let size = text.parse().unwrap_or(0);
    assert!(rt; 1 <= size && size <= 50000, "{text}");
    size
}

fn assert_made(rt: &impl Abort, made: &[u8], length: &str, beginning: &str) {
    assert_eq!(rt; made.len(), length.parse().unwrap_or(0), "{beginning}");
    assert!(rt; made.starts_with(beginning.as_bytes()), "{beginning}");
}

#[test]
fn makes_what_is_wanted(rt: HostRuntime) -> Result<(), Fail> {
    let alloc = rt.alloc();
    let aff = "SET UTF-8\nPFX A Y 1\nPFX A 0 re .\nSFX B Y 2\nSFX B 0 n [^a]\nSFX B a en a\n";
    assert_made(&rt, &make_aff(alloc)?, "71", aff);
    let mut rows = 0u32;
    for row in MADE.split("||").skip(1) {
        let (numbers, files) = row.split_once("=>").unwrap_or((row, ""));
        let (dic, text) = files.split_once("=>").unwrap_or((files, ""));
        let mut numbers = numbers.split(' ');
        let start = numbers.next().unwrap_or("").parse::<u64>().unwrap_or(0);
        let size = size_of(&rt, numbers.next().unwrap_or(""));
        assert_made(
            &rt,
            &make_dic(alloc, size)?,
            numbers.next().unwrap_or(""),
            dic,
        );
        assert_made(
            &rt,
            &make_text(alloc, start, size)?,
            numbers.next().unwrap_or(""),
            text,
        );
        rows = rows.wrapping_add(1);
    }
    assert_eq!(rt; rows, 5);
    Ok(())
}
