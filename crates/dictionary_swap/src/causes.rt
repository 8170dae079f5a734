//! The causes of faults in words, which stand behind the number of a line. The launcher's table
//! `tools/launcher/causes` has the same sentences, and `tests/launcher.sh` compares the two.

use aff_lines::AffWhy;
use dic_reader::DicWhy;

/// What is wrong with a line of an .aff file.
pub fn aff_cause(why: &AffWhy) -> &'static str {
    match why {
        AffWhy::NotUtf8 => "the line is not UTF-8",
        AffWhy::OtherEncoding => "the file is in another encoding than UTF-8",
        AffWhy::LeftOut => "the dictionary needs an option that is not built",
        AffWhy::MissingField => "the line lacks a field that its option needs",
        AffWhy::Twice => {
            "the line says again what may be said once, or is past the rows that its table announces"
        }
        AffWhy::BadNumber => {
            "a field is not a number, or too high a number, or the rule has no header of its class above it"
        }
        AffWhy::TooMany => "more rows or rules are announced than are allowed",
        AffWhy::TableShort => "the table announces more rows than it has",
        AffWhy::OtherFlag => {
            "there is no such type of flags: `long`, `num` and `UTF-8` are the types"
        }
        AffWhy::BadCross => "whether affixes of the class go with others is neither `Y` nor `N`",
        AffWhy::BadFlag => {
            "a field is not a flag, or not a list of flags, of the type that FLAG names"
        }
        AffWhy::BadAlias => "a field is not the number of a row of AF",
        AffWhy::BadCondition => "a bracket of the condition is not closed",
        AffWhy::BadPattern => {
            "the compound rule is not a list of flags with `*` or `?` behind some"
        }
    }
}

/// What is wrong with a line of a .dic file.
pub fn dic_cause(why: &DicWhy) -> &'static str {
    match why {
        DicWhy::NotUtf8 => "the line is not UTF-8",
        DicWhy::BadCount => "the first line does not begin with the number of entries",
        DicWhy::EmptyWord => "the entry has no word",
        DicWhy::BadFlag => "a field is not a list of flags of the type that FLAG names",
        DicWhy::BadAlias => "a field is not the number of a row of AF",
        DicWhy::TooMany => "there are more than 1,000,000 entries",
    }
}
