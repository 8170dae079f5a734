//! What no clause says: that loads succeed, and what is said to people where they do not.

use dictionary_swap::load_lexicon;
use outside_doubles::MemFiles;
use std::alloc::{AllocError, Global};
use std::process::Abort;
use std::test::Fail;

/// The names of files, and their lines, between bars.
const FILES: &str = "good.aff=>SET UTF-8|
other.aff=>SET ISO8859-1|
good.dic=>1|hello|
bare.dic=>hello|
";

/// Two names, and what is said of the load. The tenth file that is asked for fails.
const LOADS: &str = "good.aff good.dic=>loaded
none.aff bare.dic=>a file of the dictionary is not there
other.aff none.dic=>line 1 of the .aff file: the file is in another encoding than UTF-8
good.aff none.dic=>a file of the dictionary is not there
good.aff bare.dic=>line 1 of the .dic file: the first line does not begin with the number of entries
good.aff good.dic=>a file of the dictionary could not be read
good.aff good.dic=>loaded
";

fn folder(alloc: Global) -> Result<Vec<(String, Vec<u8>)>, AllocError> {
    let mut folder = Vec::new(alloc);
    for row in FILES.lines() {
        let (name, lines) = row.split_once("=>").unwrap_or((row, ""));
        let mut bytes = Vec::from_slice(alloc, lines.as_bytes())?;
        for byte in &mut bytes {
            if *byte == b'|' {
                *byte = b'\n';
            }
        }
        folder.push((String::from_str(alloc, name)?, bytes))?;
    }
    Ok(folder)
}

/// What is said of a load. Where it gives a dictionary, that is let go.
fn said_of(alloc: Global, files: &mut MemFiles, names: &str) -> Result<String, AllocError> {
    let (aff, dic) = names.split_once(' ').unwrap_or((names, ""));
    match load_lexicon(alloc, files, aff, dic) {
        Ok(_) => format!(in alloc; "loaded"),
        Err(fault) => format!(in alloc; "{fault}"),
    }
}

#[test]
fn says_what_is_wanted(rt: HostRuntime) -> Result<(), Fail> {
    let alloc = rt.alloc();
    let mut files = MemFiles::new(folder(alloc)?, Vec::from_slice(alloc, &[10])?);
    let mut rows = 0u32;
    for row in LOADS.lines() {
        let (names, want) = row.split_once("=>").unwrap_or((row, ""));
        let said = said_of(alloc, &mut files, names)?;
        assert_eq!(rt; said.as_str(), want, "{names}");
        rows = rows.wrapping_add(1);
    }
    assert_eq!(rt; rows, 7);
    Ok(())
}
