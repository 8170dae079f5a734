//! A board.

ghost use Rattle.std.specs.Prelude.{◌≡◌};
ghost use Rattle.std.specs.Arc.{arc_value};
ghost use Rattle.edit_core.specs.Seen.{IsValidBoard};

use crate::state::State;
use mark_types::Judge;
use paragraph_text::Paragraphs;
use shared_items::SharedItems;
use std::marker::Model;
use std::sync::Arc;

/// The paragraphs of a text, how each stands, and the dictionary in force, at one point of one
/// history. Contracts see it without its judge and its checks: the marks of a finished paragraph
/// follow from its text and the dictionary.
#[derive(Drop)]
pub struct Board<J: Judge> {
    pub(crate) point: u64,
    pub(crate) text: u64,
    pub(crate) dict: u64,
    pub(crate) judge: Arc<J>,
    pub(crate) paragraphs: Paragraphs,
    pub(crate) states: SharedItems<State<J>>,
    pub(crate) next_id: u64,
}

impl<J: Judge> Model for Board<J> {
    ghost use Rattle.std.specs.Prelude.{map};
    ghost use Rattle.std.specs.Arc.{arc_value};
    ghost use Rattle.edit_core.specs.Seen.{Seen, AreTheirs, IsValidBoard, standing_of};

    ghost Value = { Seen };

    ghost view = { λ inside. record {
      point = inside.point;
      text_version = inside.text;
      dict_version = inside.dict;
      lexicon = J.lexicon (arc_value inside.judge);
      paragraphs = inside.paragraphs;
      standings = map standing_of inside.states;
      next_id = inside.next_id;
    } };

    ghost invariant = { λ inside.
        IsValidBoard (record {
          point = inside.point;
          text_version = inside.text;
          dict_version = inside.dict;
          lexicon = J.lexicon (arc_value inside.judge);
          paragraphs = inside.paragraphs;
          standings = map standing_of inside.states;
          next_id = inside.next_id;
        }) × AreTheirs J.lexicon (J.lexicon (arc_value inside.judge)) inside.paragraphs
        inside.states };
}

impl<J: Judge> Board<J> {
    /// The judge of the dictionary in force.
    pub fn judge(&self) -> &Arc<J>
        ensures judge { J.lexicon (arc_value result.now) ≡ self.now.lexicon }
        ensures valid { IsValidBoard self.now }
    {
        &self.judge
    }
}
