//! What calls answer.

ghost use Rattle.std.specs.Prelude.{◌≡◌};
ghost use Rattle.affedit_c.specs.Answers.{answer_number};

/// What a call answers. C is told the number.
#[derive(Clone, Copy, Debug, PartialEq, Eq)]
pub enum Answer {
    /// What was asked for is done.
    Done,
    /// The dictionary generates the word.
    Known,
    /// It does not.
    Unknown,
    /// A file has a fault, which is told.
    Faulty,
    /// The line is blank, and adds nothing.
    Blank,
    /// The line has no word, or a slash and no model behind it.
    EmptyWord,
    /// The list has as many items as are allowed.
    TooMany,
    /// The bytes are not UTF-8.
    NotUtf8,
    /// The text has 4,294,967,296 bytes or more.
    TooLong,
    /// The handle has no dictionary.
    Closed,
    /// Memory for the answer could not be had.
    NoMemory,
    /// No unit of places has this number.
    BadUnit,
}

impl Answer {
    /// The number by which C is told the answer.
    #[tactic(auto, unfolding(crate::specs::Answers::answer_number))]
    pub fn number(self) -> u32
        ensures { result ≡ answer_number self }
    {
        match self {
            Answer::Done => 0,
            Answer::Known => 1,
            Answer::Unknown => 2,
            Answer::Faulty => 3,
            Answer::Blank => 4,
            Answer::EmptyWord => 5,
            Answer::TooMany => 6,
            Answer::NotUtf8 => 7,
            Answer::TooLong => 8,
            Answer::Closed => 9,
            Answer::NoMemory => 10,
            Answer::BadUnit => 11,
        }
    }
}
