//! What the commands of a console do that leave its dictionary.

ghost use Rattle.std.specs.Prelude.{◌≡◌, ◌≤◌, IfErr, IfOk, false, true};
ghost use Rattle.std.specs.Arc.{arc_value};
ghost use Rattle.board_share.specs.edit_core.Events.{event_of};
ghost use Rattle.console_lang.specs.declared.reply.Reply.TheVariants.{Done};
ghost use Rattle.board_share.specs.Eyes.{last_of};
ghost use Rattle.console_board.specs.BoardAnswers.{IsAsked, look_reply};
ghost use Rattle.console_board.specs.Transcripts.{HasWholeText, is_no_files};
ghost use Rattle.console_history.specs.Told.{IsEventTold, IsLexiconTold, IsPlaceTold};
ghost use Rattle.console_history.specs.Told.{IsPlainTold, Looks, Settles};
ghost use Rattle.desk_console.specs.Consoles.{IsCutOff, needs_no_dictionary};

use crate::console::DeskConsole;
use crate::stop::{Stop, stop_of, turned_down};
use board_share::Naming;
use board_share::edit_core::Event;
use check_workers::settle;
use console_board::{asked_events_have_replies, event_for, show};
use console_history::told_commands_go_one_on;
use console_lang::{Command, Reply};
use mark_types::Judge;
use std::alloc::Global;
use std::sync::{Arc, Wait};

impl<J: Judge + Drop, O: Drop, D: Naming, W: Wait + Drop, R: Wait> DeskConsole<'_, J, O, D, W, R> {
    /// `show`: what the board shows that is looked at.
    fn show(&mut self, alloc: Global) -> Result<Reply, Stop>
        ensures dictionary { self.new.dictionary ≡ self.old.dictionary }
        ensures stopped { self.new.stopped ≡ self.old.stopped }
        ensures told { IfOk result (λ reply. Looks self.old.eye self.new.eye
            × (reply ≡ look_reply (last_of self.new.eye.run))) }
        ensures cut { IfErr result (IsCutOff self.old.eye self.new.eye) }
    {
        told_commands_go_one_on();
        let board = self.eye.look()?;
        Ok(show(alloc, &board)?)
    }

    /// `settle`: checks what is open on the board that is looked at.
    fn settle(&mut self, alloc: Global) -> Result<Reply, Stop>
        ensures dictionary { self.new.dictionary ≡ self.old.dictionary }
        ensures stopped { self.new.stopped ≡ self.old.stopped }
        ensures told { IfOk result (λ reply. Settles self.old.eye self.new.eye
            × (reply ≡ Done (last_of self.new.eye.run).text_version)) }
        ensures cut { IfErr result (IsCutOff self.old.eye self.new.eye) }
    {
        told_commands_go_one_on();
        match settle(self.rt, alloc, self.desk, &mut self.eye) {
            Ok(told) => Ok(Reply::Done { text: told.text }),
            Err(fault) => Err(stop_of(fault)),
        }
    }

    /// Does what a command asks for that is done without a dictionary, for the session with this
    /// number, which its events name. `load`, `own` and `quit` are no such commands.
    #[tactic(auto, unfolding(console_history::specs::Told::IsPlainTold))]
    pub fn reply_as(&mut self, alloc: Global, session: u32, command: Command) -> Result<Reply, Stop>
        requires plain { needs_no_dictionary command ≡ true }
        requires whole { HasWholeText command }
        ensures dictionary { self.new.dictionary ≡ self.old.dictionary }
        ensures stopped { self.new.stopped ≡ self.old.stopped }
        ensures told { IfOk result (IsPlainTold session command self.old.eye self.new.eye) }
        ensures cut { IfErr result (IsCutOff self.old.eye self.new.eye) }
    {
        match command {
            Command::Show => self.show(alloc),
            Command::Settle => self.settle(alloc),
            Command::Load { .. } | Command::Own { .. } | Command::Quit => unreachable!(),
            command => self.carry_out(alloc, session, command),
        }
    }

    /// Brings a dictionary into force, and tells its version. The console's own stays.
    pub fn bring_in(&mut self, alloc: Global, judge: Arc<J>) -> Result<Reply, Stop>
        ensures dictionary { self.new.dictionary ≡ self.old.dictionary }
        ensures stopped { self.new.stopped ≡ self.old.stopped }
        ensures told { IfOk result
            (IsLexiconTold (J.lexicon (arc_value judge)) self.old.eye self.new.eye) }
        ensures cut { IfErr result (IsCutOff self.old.eye self.new.eye) }
        ensures files { IfOk result (λ reply. is_no_files reply ≡ false) }
    {
        match self
            .desk
            .publish(self.rt, alloc, &mut self.eye, Event::Load { judge })
        {
            Ok(told) => {
                self.bell.ring(self.rt);
                Ok(Reply::Dict { dict: told.dict })
            }
            Err(refusal) => turned_down(refusal),
        }
    }

    /// What a command does that names a place of the board that is looked at: its event is
    /// published or turned down, or there is no such place.
    fn carry_out(&mut self, alloc: Global, session: u32, command: Command) -> Result<Reply, Stop>
        requires whole { HasWholeText command }
        ensures dictionary { self.new.dictionary ≡ self.old.dictionary }
        ensures stopped { self.new.stopped ≡ self.old.stopped }
        ensures told { IfOk result (IsPlaceTold session command self.old.eye self.new.eye) }
        ensures cut { IfErr result (IsCutOff self.old.eye self.new.eye) }
    {
        asked_events_have_replies();
        told_commands_go_one_on();
        let board = self.eye.look()?;
        match event_for(&board, session, command) {
            None => Ok(Reply::NoPlace {
                count: board.versions().paragraphs,
            }),
            Some(event) => self.publish(alloc, event),
        }
    }

    /// Publishes an event, and tells the text's version; or what it is turned down with.
    fn publish(&mut self, alloc: Global, event: Event<J>) -> Result<Reply, Stop>
        requires { IsAsked (event_of J.lexicon event) }
        ensures dictionary { self.new.dictionary ≡ self.old.dictionary }
        ensures stopped { self.new.stopped ≡ self.old.stopped }
        ensures told { IfOk result
            (IsEventTold (event_of J.lexicon event) self.old.eye self.new.eye) }
        ensures cut { IfErr result (IsCutOff self.old.eye self.new.eye) }
    {
        asked_events_have_replies();
        told_commands_go_one_on();
        match self.desk.publish(self.rt, alloc, &mut self.eye, event) {
            Ok(told) => {
                self.bell.ring(self.rt);
                Ok(Reply::Done { text: told.text })
            }
            Err(refusal) => turned_down(refusal),
        }
    }
}
