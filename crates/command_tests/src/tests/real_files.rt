//! What no run over objects in memory shows: the files and the input of the system, and lists as
//! keys.

use outside::lists::Items;
use outside::{FileFault, Files, RealFiles, Source, StdSource};
use std::alloc::{AllocError, Global};
use std::collections::HashMap;
use std::fs;
use std::test::Fail;

// The file is longer than one piece.
#[test]
fn reads_what_is_there(rt: HostRuntime) -> Result<(), Fail> {
    let alloc = rt.alloc();
    let name = "affedit_real_files.txt";
    let wanted = vec![in alloc; 7u8; 70_000]?;
    fs::write(&rt, name, &wanted)?;
    let mut files = RealFiles::new(&rt);
    let mut into = Vec::new(alloc);
    for (name, limit, want, len) in [
        ("affedit_no_such_file.txt", 9, Err(FileFault::Missing), 0),
        (name, 69_999, Err(FileFault::TooLong), 0),
        (name, 70_000, Ok(()), 70_000),
        (name, 0, Err(FileFault::TooLong), 70_000),
    ] {
        let loaded = files.load(alloc, name, limit, &mut into);
        assert_eq!(rt; loaded, want, "{name} at {limit}");
        assert_eq!(rt; into.len(), len, "{name} at {limit}");
    }
    assert!(rt; into.as_slice() == wanted.as_slice());
    fs::remove_file(&rt, name)?;
    let mut piece = [0u8; 4];
    if let Ok(count) = StdSource::new(&rt).read(&mut piece) {
        assert!(rt; count <= 4);
    }
    Ok(())
}

fn list_of(alloc: Global, text: &str) -> Result<Items<char>, AllocError> {
    let items = text.chars().collect(alloc)?;
    Ok(Items::from_vec(items))
}

/// Two lists of the same items, and the place of each.
fn places_of(alloc: Global) -> Result<HashMap<Items<char>, usize>, AllocError> {
    let mut places = HashMap::new(alloc);
    places.insert(list_of(alloc, "ab")?, 0)?;
    places.insert(list_of(alloc, "ba")?, 1)?;
    Ok(places)
}

fn place_in(
    alloc: Global,
    places: &HashMap<Items<char>, usize>,
) -> Result<Option<usize>, AllocError> {
    let key = list_of(alloc, "ba")?;
    Ok(places.get(&key).copied())
}

// A list is a key of maps by its items.
#[test]
fn finds_lists_by_their_items(rt: HostRuntime) -> Result<(), Fail> {
    let places = places_of(rt.alloc())?;
    assert_eq!(rt; place_in(rt.alloc(), &places)?, Some(1));
    Ok(())
}
