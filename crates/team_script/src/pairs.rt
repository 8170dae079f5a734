//! The pairs of dictionary files that a script loads.

ghost use Rattle.std.specs.Prelude.{◌≡◌, ◌≤◌, IfOk, length};
ghost use Rattle.text_lines.specs.lists.Answers.{GivesDue};
ghost use Rattle.console_lang.specs.Commands.{said_by};
ghost use Rattle.team_script.specs.Pairs.{loads, loaded, is_same, is_pair_among, pair_limit};
ghost use Rattle.team_script.specs.Pairs.{pairs_in};
ghost use Rattle.team_script.specs.Due.{MayComeOfScripts, pairs_due};

use crate::fault::ScriptFault;
use crate::line::SessionLine;
use console_lang::{Command, CommandFault, read_command};
use std::alloc::Global;
use text_lines::Text;
use text_lines::lists::{Items, NoMemory};

/// How many different pairs a script loads at most.
const PAIR_LIMIT: usize = 4;

/// The names of the two files of a dictionary.
#[derive(Debug, Drop)]
pub struct Pair {
    pub aff: Text,
    pub dic: Text,
}

/// The pairs that these lines load, each where it is first named, unless they are too many.
pub fn pairs_of(alloc: Global, lines: &[SessionLine]) -> Result<Items<Pair>, ScriptFault>
    ensures due { GivesDue MayComeOfScripts (λ pairs. pairs) (pairs_due lines.now) result }
    ensures all { IfOk result (λ pairs. pairs ≡ pairs_in lines.now) }
    ensures few { IfOk result (λ pairs. length pairs ≤ pair_limit) }
{
    let mut pairs = Items::new(alloc);
    for line in lines {
        let Some(pair) = loaded(alloc, line.text.as_str())? else {
            continue;
        };
        if is_among(&pairs, &pair) {
            continue;
        }
        if pairs.len() == PAIR_LIMIT {
            return Err(ScriptFault::ManyPairs);
        }
        pairs.push(pair)?;
    }
    Ok(pairs)
}

/// The pair that a text loads, if it is such a command of the console.
fn loaded(alloc: Global, text: &str) -> Result<Option<Pair>, NoMemory>
    ensures { IfOk result (λ pair. pair ≡ loaded (said_by text.now)) }
{
    match read_command(alloc, text) {
        Ok(Some(command)) => Ok(loads(command)),
        Ok(None) | Err(CommandFault::BadCommand) => Ok(None),
        Err(CommandFault::NoMemory) => Err(NoMemory),
    }
}

/// The pair that a command loads, if it is `load`.
fn loads(command: Command) -> Option<Pair>
    ensures { result ≡ loads command }
{
    match command {
        Command::Load { aff, dic } => Some(Pair { aff, dic }),
        _ => None,
    }
}

fn is_among(pairs: &[Pair], pair: &Pair) -> bool
    ensures { result ≡ is_pair_among pairs.now pair.now }
{
    pairs.iter().any(|other| is_same(other, pair))
}

/// Whether both names are equal.
fn is_same(pair: &Pair, other: &Pair) -> bool
    ensures { result ≡ is_same pair.now other.now }
{
    pair.aff == other.aff && pair.dic == other.dic
}
