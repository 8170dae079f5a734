//! What is replied where a board refuses an event, or a dictionary has a fault.

ghost use Rattle.std.specs.Prelude.{◌≡◌, IfOk, IsSome, OnOk, Some, false};
ghost use Rattle.console_board.specs.BoardAnswers.{reply_for};
ghost use Rattle.console_board.specs.OwnConsoles.{fault_reply};
ghost use Rattle.console_board.specs.Transcripts.{is_no_files};

use console_lang::Reply;
use dictionary_swap::LoadFault;
use edit_core::Refusal;
use outside::lists::NoMemory;

/// The reply to a refusal that has one. That the history is at its last point, that memory is
/// wanting, a text with a line feed, and the refusals of workers have none.
pub fn refused(refusal: Refusal) -> Reply
    requires { IsSome (reply_for refusal) }
    ensures reply { reply_for refusal ≡ Some result }
    ensures files { is_no_files result ≡ false }
{
    match refusal {
        Refusal::Gone { .. } => Reply::NoGone,
        Refusal::Behind { rev } => Reply::NoBehind { rev },
        Refusal::BadSpan { length } => Reply::NoBadSpan { length },
        Refusal::TooLong { would } => Reply::NoTooLong { would },
        Refusal::Full { count } => Reply::NoFull { count },
        Refusal::Finished { .. } => Reply::NoFinished,
        Refusal::Parked { .. } => Reply::NoParked,
        Refusal::NotParked { .. } => Reply::NoNotParked,
        _ => unreachable!(),
    }
}

/// The reply to a dictionary's fault. Want of memory has none.
pub fn fault_reply(fault: LoadFault) -> Result<Reply, NoMemory>
    ensures reply { IfOk result (λ reply. reply ≡ fault_reply fault) }
    ensures has_reply { OnOk result (¬ (fault ≡ LoadFault.NoMemory)) }
{
    match fault {
        LoadFault::Failed => Ok(Reply::NoFiles),
        LoadFault::Missing => Ok(Reply::NoMissing),
        LoadFault::TooLong { .. } => Ok(Reply::NoLarge),
        LoadFault::Aff { line, why } => Ok(Reply::NoAff { line, why }),
        LoadFault::Dic { line, why } => Ok(Reply::NoDic { line, why }),
        LoadFault::NoMemory => Err(NoMemory),
    }
}
