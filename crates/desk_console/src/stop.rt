//! Why a console stops.

ghost use Rattle.std.specs.Prelude.{◌≡◌, IfErr, IfOk, Some};
ghost use Rattle.console_board.specs.BoardAnswers.{reply_for};
ghost use Rattle.desk_console.specs.Consoles.{StopsOrHasReply, refusal_of_stop};
ghost use Rattle.desk_console.specs.declared.stop.Stop.TheVariants.{Wanting};
ghost use Rattle.check_workers.specs.Ends.{refusal_of_claim};

use board_share::ClaimFault;
use board_share::edit_core::Refusal;
use console_board::refused;
use console_lang::Reply;
use outside::lists::NoMemory;
use std::alloc::AllocError;

/// Why a console stops before its input ends.
#[derive(Clone, Copy, Debug, PartialEq, Eq)]
pub enum Stop {
    /// Memory was wanting.
    Wanting,
    /// The history is at the last point that it may have.
    Spent { point: u64 },
}

impl From<NoMemory> for Stop {
    ghost from_gives = { λ _ made. made ≡ Wanting };

    fn from(_error: NoMemory) -> Stop {
        Stop::Wanting
    }
}

impl From<AllocError> for Stop {
    ghost from_gives = { λ _ made. made ≡ Wanting };

    fn from(_error: AllocError) -> Stop {
        Stop::Wanting
    }
}

/// What a fault of a settle stops the console with.
pub(crate) fn stop_of(fault: ClaimFault) -> Stop
    ensures { refusal_of_stop result ≡ refusal_of_claim fault }
{
    match fault {
        ClaimFault::Spent { point } => Stop::Spent { point },
        ClaimFault::NoMemory => Stop::Wanting,
    }
}

/// The reply to a refusal, or what it stops the console with.
pub(crate) fn turned_down(refusal: Refusal) -> Result<Reply, Stop>
    requires { StopsOrHasReply refusal }
    ensures reply { IfOk result (λ reply. reply_for refusal ≡ Some reply) }
    ensures stop { IfErr result (λ stop. refusal ≡ refusal_of_stop stop) }
{
    match refusal {
        Refusal::Spent { point } => Err(Stop::Spent { point }),
        Refusal::NoMemory => Err(Stop::Wanting),
        other => Ok(refused(other)),
    }
}
