//! Faults in words, for people.

ghost use Rattle.std.specs.Prelude.{◌≡◌, [], map, slice_index_or};
ghost use Rattle.affedit_c.specs.Causes.{sentence_of};

use crate::faults::{AFF_FILE, DIC_FILE, OWN_FILE};

/// What is wrong with an .aff file: at 0 that it has too many bytes, and then by the numbers of causes.
const AFF_CAUSES: [&str; 15] = [
    "the file has more than 16,777,216 bytes",
    "the line is not UTF-8",
    "the file is in another encoding than UTF-8",
    "the dictionary needs an option that is not built",
    "the line lacks a field that its option needs",
    "the line says again what may be said once, or is past the rows that its table announces",
    "a field is not a number, or too high a number, or the rule has no header of its class above it",
    "more rows or rules are announced than are allowed",
    "the table announces more rows than it has",
    "there is no such type of flags: `long`, `num` and `UTF-8` are the types",
    "whether affixes of the class go with others is neither `Y` nor `N`",
    "a field is not a flag, or not a list of flags, of the type that FLAG names",
    "a field is not the number of a row of AF",
    "a bracket of the condition is not closed",
    "the compound rule is not a list of flags with `*` or `?` behind some",
];

/// What is wrong with a .dic file.
const DIC_CAUSES: [&str; 7] = [
    "the file has more than 16,777,216 bytes",
    "the line is not UTF-8",
    "the first line does not begin with the number of entries",
    "the entry has no word",
    "a field is not a list of flags of the type that FLAG names",
    "a field is not the number of a row of AF",
    "there are more than 1,000,000 entries",
];

/// What is wrong with a list of personal words.
const OWN_CAUSES: [&str; 4] = [
    "the file has more than 16,777,216 bytes",
    "the line is not UTF-8",
    "the word is empty, or the model behind the slash is",
    "there are more than 10,000 words",
];

/// The sentence for a cause in a file; none where no fault has these numbers.
pub fn sentence_of(file: u32, cause: u32) -> &'static str
    ensures { result.now ≡ sentence_of file cause }
{
    match file {
        AFF_FILE => sentence_in(&AFF_CAUSES, cause),
        DIC_FILE => sentence_in(&DIC_CAUSES, cause),
        OWN_FILE => sentence_in(&OWN_CAUSES, cause),
        _ => "",
    }
}

fn sentence_in(causes: &[&'static str], cause: u32) -> &'static str
    ensures { result.now ≡ slice_index_or (map (λ sentence. sentence.now) causes.now) cause [] }
{
    match causes.get(cause as usize) {
        Some(sentence) => *sentence,
        None => "",
    }
}
