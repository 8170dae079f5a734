//! Texts that may have a flag behind a slash.

ghost use Rattle.std.specs.Prelude.{◌≡◌, IfSome};
ghost use Rattle.std.specs.Option.{option_copied};
ghost use Rattle.spell_types.specs.Flags.{IsOrdinary};
ghost use Rattle.aff_lines.specs.FlaggedTexts.{bare_text, text_behind_slash, flag_behind};
ghost use Rattle.aff_lines.specs.FlaggedTexts.{is_flagged};

use flag_sets::read_one_flag;
use spell_types::{Flag, FlagKind};

/// The text without its flag: all before its first slash.
pub fn bare_text(text: &str) -> &str
    ensures { result.now ≡ bare_text text.now }
{
    match text.split_once('/') {
        Some((own, _)) => own,
        None => text,
    }
}

/// All behind the first slash of a text, if it has one.
fn flag_text(text: &str) -> Option<&str>
    ensures { option_copied result ≡ text_behind_slash text.now }
{
    let (_, flag) = text.split_once('/')?;
    Some(flag)
}

/// The flag of a text, if it has one.
pub fn flag_behind(kind: FlagKind, text: &str) -> Option<Flag>
    ensures flag { result ≡ flag_behind kind text.now }
    ensures ordinary { IfSome result IsOrdinary }
{
    read_one_flag(kind, flag_text(text)?)
}

/// Whether a text has no slash, or exactly one flag behind it.
pub(crate) fn is_flagged(kind: FlagKind, text: &str) -> bool
    ensures { result ≡ is_flagged kind text.now }
{
    match flag_text(text) {
        None => true,
        Some(flag) => read_one_flag(kind, flag).is_some(),
    }
}
