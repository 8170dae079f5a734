//! How a call ends where the reading of its input has ended.

ghost use Rattle.std.specs.Prelude.{◌≡◌};
ghost use Rattle.line_forms.specs.Forms.{end_after_reading};

use file_loading::{End, Failure};
use input_lines::{INPUT_LIMIT, LINE_LIMIT, ReadingEnd};

/// How a call ends where the reading of its input ends so. Where the sink failed, nothing more is
/// written.
pub fn end_of(ended: ReadingEnd) -> Option<End>
    ensures { result ≡ end_after_reading ended }
{
    match ended {
        ReadingEnd::Finished => Some(End::Quiet),
        ReadingEnd::Interrupted => Some(End::Failed(Failure::Input)),
        ReadingEnd::TooMuch => Some(End::Failed(Failure::Limit { limit: INPUT_LIMIT })),
        ReadingEnd::LongLine => Some(End::Failed(Failure::Limit {
            limit: LINE_LIMIT as u64,
        })),
        ReadingEnd::NoMemory => Some(End::Failed(Failure::NoMemory)),
        ReadingEnd::SinkFailed => None,
    }
}
