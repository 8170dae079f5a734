//! The options behind the operands of a form of words.

ghost use Rattle.std.specs.Prelude.{◌≡◌, map};
ghost use Rattle.std.specs.Option.{option_copied, option_map};
ghost use Rattle.std.specs.String.{string_bytes};
ghost use Rattle.command_line.specs.Requests.{dictionary_named, only_workers_in, options_in};
ghost use Rattle.command_line.specs.Requests.{own_in};
ghost use Rattle.command_line.specs.Requests.{workers_in};

use file_loading::{DictionaryNames, Workers};
use std::marker::Model;
use text_lines::decimal;

/// What options say. Contracts see it.
#[derive(Drop)]
pub struct CommandOptions<'a> {
    pub workers: Workers,
    /// The personal list that is named, if one is.
    pub own: Option<&'a str>,
}

impl<'a> Model for CommandOptions<'a> {
    ghost use Rattle.std.specs.Option.{option_copied};
    ghost use Rattle.command_line.specs.Operands.{OptionValues};

    ghost Value = { OptionValues };

    ghost view = { λ inside.
        record { workers = inside.workers; own = option_copied inside.own } };
}

/// What these words say as options: `--workers N`, or nothing for no workers, and then `--own OWN`,
/// or nothing.
pub fn options_of(words: &[String]) -> Option<CommandOptions<'_>>
    ensures { result ≡ options_in (map string_bytes words.now) }
{
    match words {
        [name, number, more @ ..] if name.as_str() == "--workers" => {
            let workers = workers_of(number.as_str())?;
            let own = own_of(more)?;
            Some(CommandOptions { workers, own })
        }
        _ => {
            let own = own_of(words)?;
            Some(CommandOptions {
                workers: Workers::none(),
                own,
            })
        }
    }
}

/// How many workers these words ask for: `--workers N`, or nothing for none.
pub fn only_workers_of(words: &[String]) -> Option<Workers>
    ensures { result ≡ only_workers_in (map string_bytes words.now) }
{
    match words {
        [] => Some(Workers::none()),
        [name, number] if name.as_str() == "--workers" => workers_of(number.as_str()),
        _ => None,
    }
}

/// How many workers a word says: one or two digits, which write no more than 16.
fn workers_of(number: &str) -> Option<Workers>
    ensures { result ≡ workers_in number.now }
{
    if number.len() > 2 {
        return None;
    }
    match decimal(number) {
        Some(count) => Workers::of(count),
        None => None,
    }
}

/// The personal list that these words name, `--own OWN`, or none where there are no words.
fn own_of(words: &[String]) -> Option<Option<&str>>
    ensures { option_map option_copied result ≡ own_in (map string_bytes words.now) }
{
    match words {
        [] => Some(None),
        [name, own] if name.as_str() == "--own" => Some(Some(own.as_str())),
        _ => None,
    }
}

/// The names of a dictionary's files, with the personal list that these options name.
pub fn named<'a>(aff: &'a str, dic: &'a str, options: &CommandOptions<'a>) -> DictionaryNames<'a>
    ensures { result ≡ dictionary_named aff.now dic.now options.now }
{
    DictionaryNames {
        aff,
        dic,
        own: options.own,
    }
}
