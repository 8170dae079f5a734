//! What the operands of each form of words ask for.

ghost use Rattle.std.specs.Prelude.{◌≡◌, map};
ghost use Rattle.std.specs.String.{string_bytes};
ghost use Rattle.command_line.specs.Requests.{check_in, edit_in, listing_in, make_in, pipe_in};
ghost use Rattle.command_line.specs.Requests.{team_in};

use crate::options::{named, only_workers_of, options_of};
use crate::requests::Request;
use file_loading::DictionaryNames;
use report_forms::check::CheckNames;
use report_forms::listing::ListedNames;
use report_forms::make::of_numbers;
use team_forms::team::TeamNames;
use text_lines::decimal;

/// What the operands of `check` ask for.
pub fn check_of(operands: &[String]) -> Option<Request<'_>>
    ensures { result ≡ check_in (map string_bytes operands.now) }
{
    match operands {
        [aff, dic, document, options @ ..] => {
            let options = options_of(options)?;
            Some(Request::Check {
                names: CheckNames {
                    dictionary: named(aff.as_str(), dic.as_str(), &options),
                    document: document.as_str(),
                },
                workers: options.workers,
            })
        }
        _ => None,
    }
}

/// What the operands of `make` ask for.
pub fn make_of(operands: &[String]) -> Option<Request<'_>>
    ensures { result ≡ make_in (map string_bytes operands.now) }
{
    match operands {
        [start, size] => {
            let making = of_numbers(decimal(start.as_str()), decimal(size.as_str()))?;
            Some(Request::Make(making))
        }
        _ => None,
    }
}

/// What the operands of `edit` ask for.
pub fn edit_of(operands: &[String]) -> Option<Request<'_>>
    ensures { result ≡ edit_in (map string_bytes operands.now) }
{
    match operands {
        [aff, dic, options @ ..] => {
            let options = options_of(options)?;
            Some(Request::Edit {
                names: named(aff.as_str(), dic.as_str(), &options),
                workers: options.workers,
            })
        }
        _ => None,
    }
}

/// What the operands of `forms` ask for.
pub fn listing_of(operands: &[String]) -> Option<Request<'_>>
    ensures { result ≡ listing_in (map string_bytes operands.now) }
{
    match operands {
        [aff, dic] => Some(Request::Listing(ListedNames {
            aff: aff.as_str(),
            dic: dic.as_str(),
        })),
        _ => None,
    }
}

/// What the operands of `pipe` ask for.
pub fn pipe_of(operands: &[String]) -> Option<Request<'_>>
    ensures { result ≡ pipe_in (map string_bytes operands.now) }
{
    match operands {
        [aff, dic] => Some(Request::Pipe(DictionaryNames {
            aff: aff.as_str(),
            dic: dic.as_str(),
            own: None,
        })),
        _ => None,
    }
}

/// What the operands of `team` ask for.
pub fn team_of(operands: &[String]) -> Option<Request<'_>>
    ensures { result ≡ team_in (map string_bytes operands.now) }
{
    match operands {
        [aff, dic, script, options @ ..] => {
            let workers = only_workers_of(options)?;
            let names = TeamNames {
                aff: aff.as_str(),
                dic: dic.as_str(),
                script: script.as_str(),
            };
            Some(Request::Team { names, workers })
        }
        _ => None,
    }
}
