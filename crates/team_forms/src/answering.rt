//! How a session answers its lines.

ghost use Rattle.std.specs.Prelude.{◌≡◌, ℕ, length, All, IfErr, IfOk, OnOk, Some, find, map, true};
ghost use Rattle.std.specs.Option.{option_copied};
ghost use Rattle.std.specs.String.{string_bytes};
ghost use Rattle.console_lang.specs.declared.command.Command.{Command};
ghost use Rattle.console_board.specs.Transcripts.{HasWholeText};
ghost use Rattle.input_lines.specs.Answers.{HasNoBreak};
ghost use Rattle.team_history.specs.Eyes.{AsksAtMost, IsPairTold, IsSaidTo};
ghost use Rattle.team_history.specs.ToldBy.{Session as SessionOf, without_own};
ghost use Rattle.team_script.specs.Pairs.{is_pair_among, loads};
ghost use Rattle.team_script.specs.declared.pairs.Pair.{Pair};
ghost use Rattle.team_forms.specs.Pairs.{LoadsHeld, has_names, names_of};
ghost use Rattle.team_forms.specs.Sessions.{AnswersAll, AnswersSessionLine, IsOf, MayStop};

use crate::pairs::LoadedPair;
use board_share::Naming;
use console_board::{commands_have_whole_texts, fault_reply};
use console_lang::{Command, CommandFault, Reply};
use desk_console::{DeskConsole, Stop, is_quit, push_reply, read_line};
use input_lines::Flow;
use mark_types::Judge;
use std::alloc::Global;
use std::sync::{Arc, Wait};
use team_history::{heard_sessions_go_on, told_commands_ask_once};

/// Answers the lines of a session up to `quit` or their end, or until it is stopped.
pub(crate) fn answer_all<J: Judge + Drop, D: Naming, W: Wait + Drop, R: Wait>(
    alloc: Global,
    session: u32,
    lines: &[&str],
    pairs: &[LoadedPair<J>],
    console: &mut DeskConsole<'_, J, (), D, W, R>,
    replies: &mut String,
) -> Result<(), Stop>
    requires whole { All (λ line. HasNoBreak line.now) lines.now }
    requires held { All (λ line. LoadsHeld pairs.now line.now) lines.now }
    ensures asks { AsksAtMost (length lines.now) console.old.eye console.new.eye }
    ensures cut { IfErr result (MayStop console.new.eye) }
    ensures answered { OnOk result
        (AnswersAll J.lexicon pairs.now session (map (λ line. line.now) lines.now)
        console.old.eye console.new.eye (string_bytes replies.old) (string_bytes replies.new)) }
{
    heard_sessions_go_on();
    for line in lines.iter() {
        match answer(alloc, session, line, pairs, console, replies)? {
            Flow::On => {}
            Flow::Quit => break,
        }
    }
    Ok(())
}

/// Answers one line.
fn answer<J: Judge + Drop, D: Naming, W: Wait + Drop, R: Wait>(
    alloc: Global,
    session: u32,
    line: &str,
    pairs: &[LoadedPair<J>],
    console: &mut DeskConsole<'_, J, (), D, W, R>,
    replies: &mut String,
) -> Result<Flow, Stop>
    requires whole { HasNoBreak line.now }
    requires held { LoadsHeld pairs.now line.now }
    ensures asks { AsksAtMost 1 console.old.eye console.new.eye }
    ensures cut { IfErr result (MayStop console.new.eye) }
    ensures answered { IfOk result (AnswersSessionLine J.lexicon pairs.now session line.now
        console.old.eye console.new.eye (string_bytes replies.old) (string_bytes replies.new)) }
{
    commands_have_whole_texts();
    match read_line(alloc, line.as_bytes()) {
        Ok(None) => Ok(Flow::On),
        Ok(Some(command)) => {
            if is_quit(&command) {
                return Ok(Flow::Quit);
            }
            let reply = reply_to(alloc, session, command, pairs, console)?;
            push_reply(alloc, &reply, replies)?;
            Ok(Flow::On)
        }
        Err(CommandFault::BadCommand) => {
            push_reply(alloc, &Reply::NoCommand, replies)?;
            Ok(Flow::On)
        }
        Err(CommandFault::NoMemory) => Err(Stop::Wanting),
    }
}

/// Does what a command asks for. A session has no list of personal words, so `own` is none, and
/// `quit` is no command for it.
fn reply_to<J: Judge + Drop, D: Naming, W: Wait + Drop, R: Wait>(
    alloc: Global,
    session: u32,
    command: Command,
    pairs: &[LoadedPair<J>],
    console: &mut DeskConsole<'_, J, (), D, W, R>,
) -> Result<Reply, Stop>
    requires asked { ¬ (command ≡ Command.Quit) }
    requires whole { HasWholeText command }
    requires held { (pair : Pair) → loads command ≡ Some pair
        → is_pair_among (map names_of pairs.now) pair ≡ true }
    ensures asks { AsksAtMost 1 console.old.eye console.new.eye }
    ensures cut { IfErr result (MayStop console.new.eye) }
    ensures said { IfOk result (λ reply. (of : SessionOf) → IsOf J.lexicon pairs.now session of
        → IsSaidTo of console.old.eye (without_own (Some command)) console.new.eye reply) }
{
    told_commands_ask_once();
    match command {
        Command::Load { aff, dic } => load(alloc, aff.as_str(), dic.as_str(), pairs, console),
        Command::Own { .. } => Ok(Reply::NoCommand),
        Command::Quit => unreachable!(),
        command => console.reply_as(alloc, session, command),
    }
}

/// `load AFF DIC`: brings the dictionary of a pair that was loaded into force, or tells its fault.
fn load<J: Judge + Drop, D: Naming, W: Wait + Drop, R: Wait>(
    alloc: Global,
    aff: &str,
    dic: &str,
    pairs: &[LoadedPair<J>],
    console: &mut DeskConsole<'_, J, (), D, W, R>,
) -> Result<Reply, Stop>
    requires held { is_pair_among (map names_of pairs.now) (record { aff = aff.now; dic = dic.now })
        ≡ true }
    ensures asks { AsksAtMost 1 console.old.eye console.new.eye }
    ensures cut { IfErr result (MayStop console.new.eye) }
    ensures told { IfOk result (λ reply. (number : ℕ) (of : SessionOf)
        → IsOf J.lexicon pairs.now number of
        → IsPairTold of aff.now dic.now console.old.eye console.new.eye reply) }
{
    told_commands_ask_once();
    let Some(pair) = pair_named(pairs, aff, dic) else {
        unreachable!()
    };
    match &pair.loaded {
        Ok(judge) => {
            let judge = Arc::try_clone(judge)?;
            console.bring_in(alloc, judge)
        }
        Err(fault) => Ok(fault_reply(*fault)?),
    }
}

/// The first of these pairs that has these names.
fn pair_named<'p, J: Judge + Drop>(
    pairs: &'p [LoadedPair<J>],
    aff: &str,
    dic: &str,
) -> Option<&'p LoadedPair<J>>
    ensures { option_copied result ≡ find (has_names aff.now dic.now) pairs.now }
{
    pairs.iter().find(|pair| pair.is_named(aff, dic))
}
