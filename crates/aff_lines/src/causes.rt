//! What is wrong with one line.

ghost use Rattle.std.specs.Prelude.{◌≡◌, ◌<◌, ◌^◌, IfSome, option_and_then};
ghost use Rattle.std.specs.Option.{option_copied};
ghost use Rattle.aff_lines.specs.Causes.{is_utf8_name, kind_named, number_in, is_fit_value, misfit};
ghost use Rattle.aff_lines.specs.Causes.{unless};
ghost use Rattle.aff_lines.specs.Causes.{value_why, line_why, flags_why, has_two_texts};
ghost use Rattle.aff_lines.specs.Causes.{flagged_why, joint_why, row_why, number_behind_name};

use crate::faults::AffWhy;
use crate::flagged_texts::is_flagged;
use crate::names::{Form, RowForm};
use crate::rows::{DirectiveLine, value_of};
use flag_sets::{lists_flags, read_one_flag};
use spell_types::FlagKind;
use text_lines::{decimal, field};

/// How many values a number of 32 bits has.
const NUMBERS: u64 = 1 << 32;

/// What is wrong with a line of a directive that has a value.
pub fn line_why(kind: FlagKind, form: Form, line: &DirectiveLine) -> Option<AffWhy>
    ensures { result ≡ line_why kind form line.now }
{
    value_why(kind, form, value_of(line))
}

fn value_why(kind: FlagKind, form: Form, value: Option<&str>) -> Option<AffWhy>
    ensures { result ≡ value_why kind form (option_copied value.entry) }
{
    match value {
        None => Some(AffWhy::MissingField),
        Some(value) => unless(fits(kind, form, value), misfit(form)),
    }
}

/// Whether a value is right.
fn fits(kind: FlagKind, form: Form, value: &str) -> bool
    ensures { result ≡ is_fit_value kind form value.now }
{
    match form {
        Form::Encoding => is_utf8_name(value),
        Form::Kind => kind_named(value).is_some(),
        Form::Flag => read_one_flag(kind, value).is_some(),
        Form::Number => number_in(value).is_some(),
        Form::Text | Form::Switch | Form::Table(_) | Form::Class | Form::LeftOut => true,
    }
}

/// The cause where a value is not right.
fn misfit(form: Form) -> AffWhy
    ensures { result ≡ misfit form }
{
    match form {
        Form::Encoding => AffWhy::OtherEncoding,
        Form::Kind => AffWhy::OtherFlag,
        Form::Flag => AffWhy::BadFlag,
        Form::Number => AffWhy::BadNumber,
        Form::Text | Form::Switch | Form::Table(_) | Form::Class | Form::LeftOut => {
            AffWhy::MissingField
        },
    }
}

/// The cause, unless something holds.
pub fn unless(holds: bool, why: AffWhy) -> Option<AffWhy>
    ensures { result ≡ unless holds why }
{
    if holds { None } else { Some(why) }
}

/// What is wrong with a row of a table.
pub(crate) fn row_why(kind: FlagKind, row: RowForm, line: &DirectiveLine) -> Option<AffWhy>
    ensures { result ≡ row_why kind row line.now }
{
    match row {
        RowForm::FlagField => flags_why(kind, value_of(line)),
        RowForm::OneText => unless(value_of(line).is_some(), AffWhy::MissingField),
        RowForm::TwoTexts => unless(has_two_texts(line), AffWhy::MissingField),
        RowForm::Joint => joint_why(kind, line),
    }
}

/// Whether two fields stand behind a line's name.
fn has_two_texts(line: &DirectiveLine) -> bool
    ensures { result ≡ has_two_texts line.now }
{
    field(line.text.as_str(), 2).is_some()
}

/// What is wrong with a row of two texts that may have flags, with any text behind them.
fn joint_why(kind: FlagKind, line: &DirectiveLine) -> Option<AffWhy>
    ensures { result ≡ joint_why kind line.now }
{
    let text = line.text.as_str();
    flagged_why(kind, field(text, 1), field(text, 2))
}

fn flagged_why(kind: FlagKind, first: Option<&str>, second: Option<&str>) -> Option<AffWhy>
    ensures { result ≡ flagged_why kind (option_copied first.entry) (option_copied second.entry) }
{
    match (first, second) {
        (Some(first), Some(second)) => {
            let right = is_flagged(kind, first) && is_flagged(kind, second);
            unless(right, AffWhy::BadFlag)
        }
        _ => Some(AffWhy::MissingField),
    }
}

fn flags_why(kind: FlagKind, value: Option<&str>) -> Option<AffWhy>
    ensures { result ≡ flags_why kind (option_copied value.entry) }
{
    match value {
        None => Some(AffWhy::MissingField),
        Some(value) => unless(lists_flags(kind, value), AffWhy::BadFlag),
    }
}

fn is_utf8_name(text: &str) -> bool
    ensures { result ≡ is_utf8_name text.now }
{
    text.eq_ignore_ascii_case("UTF-8")
}

/// The type of flags that a text names.
pub(crate) fn kind_named(text: &str) -> Option<FlagKind>
    ensures { result ≡ kind_named text.now }
{
    if is_utf8_name(text) {
        Some(FlagKind::Utf8)
    } else if text.eq_ignore_ascii_case("long") {
        Some(FlagKind::Long)
    } else if text.eq_ignore_ascii_case("num") {
        Some(FlagKind::Num)
    } else {
        None
    }
}

/// The number that a text writes, if it is below 2^32.
pub fn number_in(text: &str) -> Option<u64>
    ensures number { result ≡ number_in text.now }
    ensures below { IfSome result (λ number. number < 2 ^ 32) }
{
    decimal(text).filter(|number| *number < NUMBERS)
}

/// The number in the field behind a line's name.
pub fn number_at(line: &DirectiveLine) -> Option<u64>
    ensures { result ≡ number_behind_name line.now }
{
    number_in(value_of(line)?)
}
