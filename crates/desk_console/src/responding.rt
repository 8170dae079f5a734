//! A console answers the lines of an input.

ghost use Rattle.std.specs.Prelude.{◌≡◌, ◌+◌, ◌<◌, ◌≤◌, ◌++◌, ◌∷◌, [], None, Some, OnErr, OnOk};
ghost use Rattle.std.specs.Prelude.{IfErr, IfOk};
ghost use Rattle.std.specs.Bool.{OnFalse, OnTrue};
ghost use Rattle.std.specs.String.{string_bytes};
ghost use Rattle.board_share.specs.Eyes.{events_in};
ghost use Rattle.console_lang.specs.Commands.{IsAnswer};
ghost use Rattle.console_lang.specs.declared.command.Command.{Command};
ghost use Rattle.console_board.specs.Transcripts.{HasWholeText, failures_in, is_quit, line_says};
ghost use Rattle.console_board.specs.Transcripts.{written_of};
ghost use Rattle.console_history.specs.Told.{IsToldTo};
ghost use Rattle.desk_console.specs.Consoles.{HasTold, IsCutOff, IsCommandReplied, IsStopped};
ghost use Rattle.desk_console.specs.Consoles.{lines_left_for_eye};
ghost use Rattle.desk_console.specs.Consoles.{most_asked};
ghost use Rattle.desk_console.specs.Starts.{told-none};

use crate::console::{DeskConsole, SESSION};
use crate::stop::Stop;
use board_share::Naming;
use console_board::commands_have_whole_texts;
use console_history::{told_commands_go_one_on, told_consoles_are_followed};
use console_lang::{Command, CommandFault, Reply, read_command, write_reply};
use input_lines::{Flow, Responder};
use mark_types::Judge;
use outside::Files;
use outside::lists::NoMemory;
use personal_words::Dictionary;
use std::alloc::Global;
use std::sync::Wait;

impl<F: Files, J, O, D: Naming, W: Wait + Drop, R: Wait> Responder<F>
    for DeskConsole<'_, J, O, D, W, R>
where
    J: Judge + Drop,
    O: Dictionary<J> + Drop,
{
    ghost quits = { is_quit };

    ghost room = { λ console. lines_left_for_eye console.eye };

    ghost Leads = { λ first beside_first lines said now beside.
        HasTold (F.told beside_first) (F.told beside) (F.faults beside_first) (F.faults beside)
        first.stopped (record { eye = first.eye; dictionary = O.seen first.dictionary })
        (record { eye = now.eye; dictionary = O.seen now.dictionary }) now.stopped lines said };

    fn answer(
        &mut self,
        alloc: Global,
        beside: &mut F,
        line: &[u8],
        answers: &mut String,
    ) -> Result<Flow, NoMemory> {
        commands_have_whole_texts();
        told_commands_go_one_on();
        told_consoles_are_followed();
        let None = self.stopped else {
            return Err(NoMemory);
        };
        match read_line(alloc, line) {
            Ok(None) => Ok(Flow::On),
            Ok(Some(command)) => {
                if is_quit(&command) {
                    return Ok(Flow::Quit);
                }
                self.reply(alloc, beside, command, answers)?;
                Ok(Flow::On)
            }
            Err(CommandFault::BadCommand) => {
                push_reply(alloc, &Reply::NoCommand, answers)?;
                Ok(Flow::On)
            }
            Err(CommandFault::NoMemory) => Err(NoMemory),
        }
    }

    ghost starts = { λ first beside. told-none (F.told beside) (F.faults beside) first.stopped
        (record { eye = first.eye; dictionary = O.seen first.dictionary }) };
}

impl<J, O, D: Naming, W: Wait + Drop, R: Wait> DeskConsole<'_, J, O, D, W, R>
where
    J: Judge + Drop,
    O: Dictionary<J> + Drop,
{
    /// Does what a command asks for and adds its reply to the others; or it is stopped. `quit` is
    /// no command for it.
    fn reply<F: Files>(
        &mut self,
        alloc: Global,
        files: &mut F,
        command: Command,
        replies: &mut String,
    ) -> Result<(), NoMemory>
        requires asked { ¬ (command ≡ Command.Quit) }
        requires whole { HasWholeText command }
        requires going { self.old.stopped ≡ None }
        ensures replied { OnOk result
            (IsCommandReplied (F.told files.old) (F.faults files.old) (F.faults files.new)
            (record { eye = self.old.eye; dictionary = O.seen self.old.dictionary })
            (record { eye = self.new.eye; dictionary = O.seen self.new.dictionary })
            command (string_bytes replies.old) (string_bytes replies.new)) }
        ensures going { OnOk result (self.new.stopped ≡ None) }
        ensures stopped { OnErr result (IsStopped self.old.eye self.new.eye self.new.stopped) }
        ensures silent { OnErr result (string_bytes replies.new ≡ string_bytes replies.old) }
        ensures same { F.told files.new ≡ F.told files.old }
        ensures count { F.faults files.old ≤ F.faults files.new }
    {
        match self.respond_in(alloc, files, command, replies) {
            Ok(()) => Ok(()),
            Err(stop) => {
                self.stopped = Some(stop);
                Err(NoMemory)
            }
        }
    }

    /// Does what a command asks for and adds its reply to the others.
    fn respond_in<F: Files>(
        &mut self,
        alloc: Global,
        files: &mut F,
        command: Command,
        replies: &mut String,
    ) -> Result<(), Stop>
        requires asked { ¬ (command ≡ Command.Quit) }
        requires whole { HasWholeText command }
        ensures replied { OnOk result
            (IsCommandReplied (F.told files.old) (F.faults files.old) (F.faults files.new)
            (record { eye = self.old.eye; dictionary = O.seen self.old.dictionary })
            (record { eye = self.new.eye; dictionary = O.seen self.new.dictionary })
            command (string_bytes replies.old) (string_bytes replies.new)) }
        ensures kept { self.new.stopped ≡ self.old.stopped }
        ensures cut { IfErr result (IsCutOff self.old.eye self.new.eye) }
        ensures silent { OnErr result (string_bytes replies.new ≡ string_bytes replies.old) }
        ensures same { F.told files.new ≡ F.told files.old }
        ensures count { F.faults files.old ≤ F.faults files.new }
    {
        told_commands_go_one_on();
        let reply = self.respond(alloc, files, command)?;
        push_reply(alloc, &reply, replies)?;
        Ok(())
    }

    /// What a command is replied to. `quit` is no command for it.
    #[tactic(auto, unfolding(console_history::specs::Told::IsToldTo, console_history::specs::Told::IsPlainTold))]
    fn respond<F: Files>(
        &mut self,
        alloc: Global,
        files: &mut F,
        command: Command,
    ) -> Result<Reply, Stop>
        requires asked { ¬ (command ≡ Command.Quit) }
        requires whole { HasWholeText command }
        ensures told { IfOk result
            (IsToldTo (F.told files.old) SESSION
            (record { eye = self.old.eye; dictionary = O.seen self.old.dictionary }) command
            (record { eye = self.new.eye; dictionary = O.seen self.new.dictionary })) }
        ensures kept { self.new.stopped ≡ self.old.stopped }
        ensures cut { IfErr result (IsCutOff self.old.eye self.new.eye) }
        ensures failures { IfOk result
            (λ reply. F.faults files.old + failures_in (reply ∷ []) ≤ F.faults files.new) }
        ensures same { F.told files.new ≡ F.told files.old }
        ensures count { F.faults files.old ≤ F.faults files.new }
    {
        match command {
            Command::Load { aff, dic } => self.load(alloc, files, aff.as_str(), dic.as_str()),
            Command::Own { text } => self.own(alloc, text.as_str()),
            Command::Quit => unreachable!(),
            command => self.reply_as(alloc, SESSION, command),
        }
    }
}

/// Whether a command ends the console.
pub fn is_quit(command: &Command) -> bool
    ensures quit { OnTrue result (command.now ≡ Command.Quit) }
    ensures other { OnFalse result (¬ (command.now ≡ Command.Quit)) }
{
    matches!(command, Command::Quit)
}

/// What a line asks for: nothing where it is blank. One that is not UTF-8 is no command.
pub fn read_line(alloc: Global, line: &[u8]) -> Result<Option<Command>, CommandFault>
    ensures { IsAnswer (line_says line.now) result }
{
    match std::str::from_utf8(line) {
        Ok(text) => read_command(alloc, text),
        Err(_) => Err(CommandFault::BadCommand),
    }
}

/// Adds the lines of a reply, or none of them where memory is wanting.
pub fn push_reply(alloc: Global, reply: &Reply, replies: &mut String) -> Result<(), NoMemory>
    ensures added { OnOk result
        (string_bytes replies.new ≡ string_bytes replies.old ++ written_of (reply.now ∷ [])) }
    ensures kept { OnErr result (string_bytes replies.new ≡ string_bytes replies.old) }
{
    let written = write_reply(alloc, reply)?;
    replies.push_str(written.as_str())?;
    Ok(())
}
