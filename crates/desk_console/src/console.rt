//! What a console over a desk is.

ghost use Rattle.std.specs.Prelude.{◌≡◌, None};

use crate::stop::Stop;
use board_share::{Desk, Eye, Naming};
use check_workers::Bell;
use mark_types::Judge;
use std::sync::Wait;

/// The number of the session that the events of a console name.
pub const SESSION: u32 = 0;

/// A console over a desk. It looks and publishes through an eye of its own, and rings a bell behind
/// each event. It has the dictionary that it brought into force last, with the personal words. `J` is
/// what the desk asks, and `O` the dictionary.
#[derive(Drop)]
pub struct DeskConsole<'a, J: Judge + Drop, O: Drop, D: Naming, W: Wait + Drop, R: Wait> {
    pub(crate) rt: &'a R,
    pub(crate) desk: &'a Desk<J, D, W>,
    pub(crate) bell: &'a Bell,
    pub(crate) eye: Eye<J, D>,
    pub(crate) dictionary: O,
    /// Why it has stopped, if it has.
    pub(crate) stopped: Option<Stop>,
}

impl<'a, J: Judge + Drop, O: Drop, D: Naming, W: Wait + Drop, R: Wait> DeskConsole<
    'a,
    J,
    O,
    D,
    W,
    R,
> {
    /// A console over an eye of the desk, by the dictionary that is in force there.
    pub fn new(
        rt: &'a R,
        desk: &'a Desk<J, D, W>,
        bell: &'a Bell,
        eye: Eye<J, D>,
        dictionary: O,
    ) -> DeskConsole<'a, J, O, D, W, R>
        ensures eye { result.eye ≡ eye }
        ensures dictionary { result.dictionary ≡ dictionary }
        ensures going { result.stopped ≡ None }
    {
        DeskConsole {
            rt,
            desk,
            bell,
            eye,
            dictionary,
            stopped: None,
        }
    }

    /// Its eye, as the end of the desk wants it, and why it has stopped, if it has.
    pub fn into_eye(self) -> (Eye<J, D>, Option<Stop>)
        ensures eye { result.0 ≡ self.entry.eye }
        ensures stopped { result.1 ≡ self.entry.stopped }
    {
        let DeskConsole { eye, stopped, .. } = self;
        (eye, stopped)
    }
}
