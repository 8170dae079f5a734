//! Dictionaries that are loaded: entries of one word, of which each gives a derivation, and a dictionary
//! that a personal list extends.

ghost use Rattle.std.specs.Prelude.{◌≤◌, length, IfOk};
ghost use Rattle.mark_types.specs.spell_types.Sanity.{IsSane, HasOrdinaryFlags, HaveOrdinaryFlags};

use affix_strip::Stems;
use dictionary_swap::load_lexicon;
use mark_types::spell_types::{Derivation, Lexicon, chars_of, has};
use outside_doubles::MemFiles;
use personal_words::{extend, read_own};
use std::alloc::{AllocError, Global};
use std::process::Abort;
use std::test::Fail;

/// How many entries of one word there are.
const HOMONYMS: u32 = 1000;

const AFF: &str = "SET UTF-8\n";

/// A file by its name and its text.
fn file(alloc: Global, name: &str, text: &str) -> Result<(String, Vec<u8>), AllocError> {
    let bytes = Vec::from_slice(alloc, text.as_bytes())?;
    Ok((String::from_str(alloc, name)?, bytes))
}

/// The dictionary of this .dic file.
fn loaded(alloc: Global, dic: &str) -> Result<Lexicon, Fail>
    ensures sane { IfOk result IsSane }
    ensures few { IfOk result (λ lexicon. length lexicon.entries ≤ 1000000) }
    ensures ordinary_affixes { IfOk result (λ lexicon. HasOrdinaryFlags lexicon.affixes) }
    ensures ordinary_entries { IfOk result (λ lexicon. HaveOrdinaryFlags lexicon.entries) }
{
    let mut folder = Vec::new(alloc);
    folder.push(file(alloc, "a.aff", AFF)?)?;
    folder.push(file(alloc, "a.dic", dic)?)?;
    let mut files = MemFiles::new(folder, Vec::new(alloc));
    Ok(load_lexicon(alloc, &mut files, "a.aff", "a.dic")?)
}

/// A .dic file of the same word again and again.
fn homonyms(alloc: Global) -> Result<String, AllocError> {
    let mut dic = String::from_str(alloc, "1000\n")?;
    for _ in 0..HOMONYMS {
        dic.push_str("foo\n")?;
    }
    Ok(dic)
}

/// The derivations of a word that many entries have.
fn derivations_of_homonyms(alloc: Global) -> Result<Vec<Derivation>, Fail> {
    let lexicon = loaded(alloc, homonyms(alloc)?.as_str())?;
    let word = chars_of(alloc, "foo")?;
    let stems = Stems::new(alloc, lexicon)?;
    Ok(stems.derivations(alloc, &word)?)
}

/// Each entry gives a derivation without affixes, by rising entry.
#[test]
fn each_homonym_gives_a_derivation(rt: HostRuntime) -> Result<(), Fail> {
    let found = derivations_of_homonyms(rt.alloc())?;
    assert_eq!(rt; found.len(), HOMONYMS as usize);
    let mut entry = 0u32;
    for d in &found {
        let wanted = Derivation {
            entry,
            prefix: None,
            first: None,
            second: None,
        };
        assert_eq!(rt; *d, wanted);
        entry = entry.wrapping_add(1);
    }
    Ok(())
}

/// A dictionary of one word, with a list that adds a word and prohibits one.
fn extended(alloc: Global) -> Result<Lexicon, Fail> {
    let base = loaded(alloc, "1\nfoo\n")?;
    let own = read_own(alloc, &base.affixes, b"bar\n*foo\n")?;
    Ok(extend(alloc, &base, &own)?)
}

/// The words of a dictionary, each with a comma behind it, and a bang where it is forbidden.
fn told(alloc: Global, lexicon: &Lexicon) -> Result<String, AllocError> {
    let mut text = String::new(alloc);
    for place in 0..lexicon.entries.len() {
        let entry = lexicon.entries.at(place);
        let is_forbidden = has(entry.flags(), lexicon.affixes.signs.forbidden);
        let sign = if is_forbidden { "!" } else { "" };
        write!(text, "{}{sign},", entry.word())?;
    }
    Ok(text)
}

/// The entries of the items stand behind those of the dictionary.
#[test]
fn extends_a_dictionary(rt: HostRuntime) -> Result<(), Fail> {
    let lexicon = extended(rt.alloc())?;
    assert_eq!(rt; told(rt.alloc(), &lexicon)?.as_str(), "foo,bar,foo!,");
    Ok(())
}
