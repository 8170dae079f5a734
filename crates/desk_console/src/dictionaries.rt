//! What the commands of a console do that change its dictionary.

ghost use Rattle.std.specs.Prelude.{◌≡◌, ◌+◌, ◌≤◌, [], ◌∷◌, IfErr, IfOk, false};
ghost use Rattle.personal_words.specs.Dictionaries.{IsLoadedBase};
ghost use Rattle.console_board.specs.Transcripts.{failures_in, is_no_files};
ghost use Rattle.console_history.specs.Told.{IsLoadTold, IsOwnTold, IsReloadTold};
ghost use Rattle.desk_console.specs.Consoles.{IsCutOff};

use crate::console::DeskConsole;
use crate::stop::Stop;
use board_share::Naming;
use console_board::fault_reply;
use console_lang::Reply;
use dictionary_swap::load_lexicon;
use mark_types::Judge;
use outside::Files;
use personal_words::{Dictionary, OwnLineFault};
use std::alloc::Global;
use std::sync::{Arc, Wait};

impl<J, O, D: Naming, W: Wait + Drop, R: Wait> DeskConsole<'_, J, O, D, W, R>
where
    J: Judge + Drop,
    O: Dictionary<J> + Drop,
{
    /// `load AFF DIC`: the dictionary of these two files is the base from here on, or what is wrong
    /// with them is told.
    pub(crate) fn load<F: Files>(
        &mut self,
        alloc: Global,
        files: &mut F,
        aff: &str,
        dic: &str,
    ) -> Result<Reply, Stop>
        ensures stopped { self.new.stopped ≡ self.old.stopped }
        ensures told { IfOk result
            (IsLoadTold (F.told files.old) aff.now dic.now
            (record { eye = self.old.eye; dictionary = O.seen self.old.dictionary })
            (record { eye = self.new.eye; dictionary = O.seen self.new.dictionary })) }
        ensures cut { IfErr result (IsCutOff self.old.eye self.new.eye) }
        ensures failures { IfOk result
            (λ reply. F.faults files.old + failures_in (reply ∷ []) ≤ F.faults files.new) }
        ensures same { F.told files.new ≡ F.told files.old }
        ensures count { F.faults files.old ≤ F.faults files.new }
    {
        match load_lexicon(alloc, files, aff, dic) {
            Ok(base) => {
                let dictionary = self.dictionary.on_base(alloc, base)?;
                self.put_in_force(alloc, dictionary)
            }
            Err(fault) => Ok(fault_reply(fault)?),
        }
    }

    /// `own TEXT`: the text is one more item of the list, or it is told that it is none.
    pub(crate) fn own(&mut self, alloc: Global, text: &str) -> Result<Reply, Stop>
        ensures stopped { self.new.stopped ≡ self.old.stopped }
        ensures told { IfOk result
            (IsOwnTold (record { eye = self.old.eye; dictionary = O.seen self.old.dictionary }) text.now
            (record { eye = self.new.eye; dictionary = O.seen self.new.dictionary })) }
        ensures cut { IfErr result (IsCutOff self.old.eye self.new.eye) }
        ensures files { IfOk result (λ reply. is_no_files reply ≡ false) }
    {
        match self.dictionary.with_item(alloc, text) {
            Ok(None) => Ok(Reply::Done {
                text: self.eye.progress().text,
            }),
            Ok(Some(dictionary)) => self.put_in_force(alloc, dictionary),
            Err(OwnLineFault::Why(why)) => Ok(Reply::NoOwn { why }),
            Err(OwnLineFault::NoMemory) => Err(Stop::Wanting),
        }
    }

    /// Brings a dictionary with personal words into force, and tells its version.
    fn put_in_force(&mut self, alloc: Global, dictionary: O) -> Result<Reply, Stop>
        ensures stopped { self.new.stopped ≡ self.old.stopped }
        ensures told { IfOk result
            (IsReloadTold self.old.eye
            (record { eye = self.new.eye; dictionary = O.seen self.new.dictionary })) }
        ensures dictionary { IfOk result (λ reply. O.seen self.new.dictionary ≡ O.seen dictionary) }
        ensures cut { IfErr result (IsCutOff self.old.eye self.new.eye) }
        ensures files { IfOk result (λ reply. is_no_files reply ≡ false) }
    {
        let judge = Arc::try_clone(dictionary.judge())?;
        let reply = self.bring_in(alloc, judge)?;
        self.dictionary = dictionary;
        Ok(reply)
    }
}
