//! What words ask for: a name, its operands, and options behind them.

ghost use Rattle.std.specs.Prelude.{◌≡◌, map};
ghost use Rattle.std.specs.String.{string_bytes};
ghost use Rattle.command_line.specs.Requests.{asked_in};

use crate::operands::{check_of, edit_of, listing_of, make_of, pipe_of, team_of};
use file_loading::{DictionaryNames, Workers};
use report_forms::check::CheckNames;
use report_forms::listing::ListedNames;
use report_forms::make::Making;
use team_forms::team::TeamNames;

/// What words may ask for, one variant for each form of words.
#[derive(Drop)]
pub enum Request<'a> {
    Check {
        names: CheckNames<'a>,
        workers: Workers,
    },
    Make(Making),
    Edit {
        names: DictionaryNames<'a>,
        workers: Workers,
    },
    Listing(ListedNames<'a>),
    Pipe(DictionaryNames<'a>),
    Team {
        names: TeamNames<'a>,
        workers: Workers,
    },
}

/// What the words ask for, if they are of one of the forms.
pub fn request_of(words: &[String]) -> Option<Request<'_>>
    ensures { result ≡ asked_in (map string_bytes words.now) }
{
    let (name, operands) = words.split_first()?;
    match name.as_str() {
        "check" => check_of(operands),
        "make" => make_of(operands),
        "edit" => edit_of(operands),
        "forms" => listing_of(operands),
        "pipe" => pipe_of(operands),
        "team" => team_of(operands),
        _ => None,
    }
}
