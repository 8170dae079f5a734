//! A session.

ghost use Rattle.std.specs.Prelude.{◌≡◌, IfErr, IfOk, OnErr, OnOk};
ghost use Rattle.std.specs.Arc.{arc_value};
ghost use Rattle.mark_types.specs.lists.Answers.{IsDueOr};
ghost use Rattle.board_share.specs.edit_core.Events.{ALoad, APark, AnAsk, AnEdit};
ghost use Rattle.board_share.specs.edit_core.Steps.{first_refusal};
ghost use Rattle.board_share.specs.edit_core.Views.{progress_of};
ghost use Rattle.board_share.specs.edit_core.declared.refusal.Refusal.TheVariants.{NoMemory as OutOfMemory};
ghost use Rattle.board_share.specs.Events.{IsPublished};
ghost use Rattle.board_share.specs.Eyes.{CountsNothing, CountsOne, IsLater, last_of};

use board_share::edit_core::{Board, Event, Progress, Refusal};
use board_share::paragraph_text::Edit;
use board_share::{Desk, Eye, Naming, Told};
use mark_types::Judge;
use mark_types::lists::NoMemory;
use std::alloc::Global;
use std::sync::{Arc, Wait};

/// How many edits and how many dictionaries were published through a session's eye.
#[derive(Clone, Copy, Debug, PartialEq, Eq)]
pub struct Made {
    pub edits: u64,
    pub loads: u64,
}

/// One caller of a desk, with a number of its own choice, which its edits, parks and asks name. The
/// desk counts what is published by the eye, whose number is another one. `K` is the type of the
/// desk, so that what only looks says nothing of a lock.
#[derive(Drop)]
pub struct Session<'a, J: Judge + Drop, D: Naming, K> {
    desk: &'a K,
    pub eye: Eye<J, D>,
    number: u32,
}

impl<'a, J: Judge + Drop, D: Naming, K> Session<'a, J, D, K> {
    /// A session over an eye of the desk.
    pub fn new(desk: &'a K, eye: Eye<J, D>, number: u32) -> Session<'a, J, D, K>
        ensures eye { result.eye ≡ eye }
        ensures number { result.number ≡ number }
    {
        Session { desk, eye, number }
    }

    /// Its eye, as the end of the desk wants it.
    pub fn into_eye(self) -> Eye<J, D>
        ensures { result ≡ self.entry.eye }
    {
        let Session { eye, .. } = self;
        eye
    }

    /// Its eye, which is a field too: a proof follows what becomes of the field, and not what becomes
    /// of it through this. What is published through it counts as the session's.
    pub fn eye(&mut self) -> &mut Eye<J, D>
        ensures { result.now ≡ self.entry.now.eye }
    {
        &mut self.eye
    }

    /// The board that is shown now, or a later one that the session knows. It waits for nobody.
    pub fn look(&mut self) -> Result<Arc<Board<J>>, NoMemory>
        ensures number { self.new.number ≡ self.old.number }
        ensures later { IsLater self.old.eye self.new.eye }
        ensures counts { CountsNothing self.old.eye self.new.eye }
        ensures board { IfOk result (λ board. arc_value board ≡ last_of self.new.eye.run) }
    {
        self.eye.look()
    }

    /// How far the board is that a look would give. It waits for nobody and takes no memory.
    pub fn progress(&mut self) -> Progress
        ensures number { self.new.number ≡ self.old.number }
        ensures later { IsLater self.old.eye self.new.eye }
        ensures counts { CountsNothing self.old.eye self.new.eye }
        ensures progress { result ≡ progress_of (last_of self.new.eye.run) }
    {
        self.eye.progress()
    }

    /// How many edits and dictionaries came through its eye and were published.
    pub fn made(&self) -> Made
        ensures { result ≡ record {
          edits = self.now.eye.counts.edits;
          loads = self.now.eye.counts.loads;
        } }
    {
        let counts = self.eye.counts();
        Made {
            edits: counts.edits,
            loads: counts.loads,
        }
    }
}

impl<J: Judge + Drop, D: Naming, R: Wait + Drop> Session<'_, J, D, Desk<J, D, R>> {
    /// Edits the text, if the last board of the desk does not refuse it.
    pub fn edit(&mut self, rt: &impl Wait, alloc: Global, edit: Edit) -> Result<Told, Refusal>
        ensures number { self.new.number ≡ self.old.number }
        ensures later { IsLater self.old.eye self.new.eye }
        ensures published { IfOk result
            (IsPublished (AnEdit self.old.number edit) self.old.eye self.new.eye) }
        ensures counted { OnOk result
            (CountsOne (AnEdit self.old.number edit) self.old.eye self.new.eye) }
        ensures refused { IfErr result
            (IsDueOr OutOfMemory
            (first_refusal (last_of self.new.eye.run) (AnEdit self.old.number edit))) }
        ensures kept { OnErr result (CountsNothing self.old.eye self.new.eye) }
    {
        let session = self.number;
        self.desk
            .publish(rt, alloc, &mut self.eye, Event::Edit { session, edit })
    }

    /// Brings another dictionary into force. Beside want of memory it is refused only behind the
    /// last event that a history has room for.
    pub fn reload(&mut self, rt: &impl Wait, alloc: Global, judge: Arc<J>) -> Result<Told, Refusal>
        ensures number { self.new.number ≡ self.old.number }
        ensures later { IsLater self.old.eye self.new.eye }
        ensures published { IfOk result
            (IsPublished (ALoad (J.lexicon (arc_value judge))) self.old.eye self.new.eye) }
        ensures counted { OnOk result
            (CountsOne (ALoad (J.lexicon (arc_value judge))) self.old.eye self.new.eye) }
        ensures refused { IfErr result
            (IsDueOr OutOfMemory
            (first_refusal (last_of self.new.eye.run) (ALoad (J.lexicon (arc_value judge))))) }
        ensures kept { OnErr result (CountsNothing self.old.eye self.new.eye) }
    {
        self.desk
            .publish(rt, alloc, &mut self.eye, Event::Load { judge })
    }

    /// Stops the check of a paragraph.
    pub fn park(&mut self, rt: &impl Wait, alloc: Global, id: u64) -> Result<Told, Refusal>
        ensures number { self.new.number ≡ self.old.number }
        ensures later { IsLater self.old.eye self.new.eye }
        ensures published { IfOk result
            (IsPublished (APark self.old.number id) self.old.eye self.new.eye) }
        ensures counted { OnOk result
            (CountsOne (APark self.old.number id) self.old.eye self.new.eye) }
        ensures refused { IfErr result
            (IsDueOr OutOfMemory
            (first_refusal (last_of self.new.eye.run) (APark self.old.number id))) }
        ensures kept { OnErr result (CountsNothing self.old.eye self.new.eye) }
    {
        let session = self.number;
        self.desk
            .publish(rt, alloc, &mut self.eye, Event::Park { session, id })
    }

    /// Asks for the check of a paragraph that is parked.
    pub fn ask(&mut self, rt: &impl Wait, alloc: Global, id: u64) -> Result<Told, Refusal>
        ensures number { self.new.number ≡ self.old.number }
        ensures later { IsLater self.old.eye self.new.eye }
        ensures published { IfOk result
            (IsPublished (AnAsk self.old.number id) self.old.eye self.new.eye) }
        ensures counted { OnOk result
            (CountsOne (AnAsk self.old.number id) self.old.eye self.new.eye) }
        ensures refused { IfErr result
            (IsDueOr OutOfMemory
            (first_refusal (last_of self.new.eye.run) (AnAsk self.old.number id))) }
        ensures kept { OnErr result (CountsNothing self.old.eye self.new.eye) }
    {
        let session = self.number;
        self.desk
            .publish(rt, alloc, &mut self.eye, Event::Ask { session, id })
    }
}
