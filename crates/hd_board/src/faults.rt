//! Why calls of a board and of its desks are refused.
ghost use Rattle.std.specs.Prelude.{◌≡◌};

use hd_log::Front;
use hd_terms::{NoMemory, Refusal};

/// Memory ran out as a desk caught up with what it had seen. It stays at the last event that it came to.
#[derive(Clone, Copy, Debug, PartialEq, Eq)]
pub struct Behind;

/// Why an event isn't appended. The first reason in this order is answered.
#[derive(Drop)]
pub enum AppendFault {
    /// The log that was found, which is foreign: the board has no desk of the analyst's number, or the log doesn't begin with
    /// what the analyst has seen, or it has other events of the analyst.
    Foreign(Front),
    /// What the log refuses, the first reason that it shows, and the log that was found: an undo's `NoSuchEvent`, `NotYours`
    /// and `NotLive`, a drop's `NoSuchRoot`, and last `LogFull`.
    Refused(Refusal, Front),
    /// Memory ran out, and the log is as it was.
    OutOfMemory,
}

impl From<NoMemory> for AppendFault {
    ghost use Rattle.hd_board.specs.declared.faults.AppendFault.TheVariants.{OutOfMemory};

    ghost from_gives = { λ _ e. e ≡ OutOfMemory };

    fn from(_error: NoMemory) -> AppendFault {
        AppendFault::OutOfMemory
    }
}

/// Why a look at the log isn't answered.
#[derive(Drop)]
pub enum LookFault {
    /// The log that was found, which is foreign, as in an append.
    Foreign(Front),
    /// Memory ran out.
    OutOfMemory,
}

impl From<NoMemory> for LookFault {
    ghost use Rattle.hd_board.specs.declared.faults.LookFault.TheVariants.{OutOfMemory};

    ghost from_gives = { λ _ e. e ≡ OutOfMemory };

    fn from(_error: NoMemory) -> LookFault {
        LookFault::OutOfMemory
    }
}

/// Why a desk hasn't come to an edit that it asked for. The first reason in this order is answered.
#[derive(Drop)]
pub enum EditFault {
    /// Memory ran out as the desk caught up with what it had seen.
    Behind,
    /// The dump refuses the edit: `NoSuchObject`, `NoSuchClass`, `NoSuchSlot`, `NotCuttable`, `NotReference` or `EmptySlot`.
    Refused(Refusal),
    /// The edit isn't appended.
    Append(AppendFault),
    /// The edit is the event of this number, but memory ran out as the desk caught up with it.
    Accepted { event: u32 },
}

/// Why a desk hasn't come to an undo that it asked for. The first reason in this order is answered.
#[derive(Drop)]
pub enum UndoFault {
    /// Memory ran out as the desk caught up with what it had seen.
    Behind,
    /// None of the analyst's edits is live.
    NothingToUndo,
    /// The undo isn't appended.
    Append(AppendFault),
    /// The undo is the event of this number, but memory ran out as the desk caught up with it.
    Accepted { event: u32 },
}

/// Why a desk isn't refreshed.
#[derive(Drop)]
pub enum RefreshFault {
    /// The log that was found, which is foreign, as in an append. The desk is as it was.
    Foreign(Front),
    /// Memory ran out as the desk caught up with the log that it has seen.
    Behind,
    /// Memory ran out before the log was seen. The desk is as it was.
    OutOfMemory,
}

/// Why a desk doesn't learn what it is told. The desk is as it was.
#[derive(Clone, Copy, Debug, PartialEq, Eq)]
pub enum LearnFault {
    /// It neither continues what the desk has seen nor is a beginning of it.
    Apart,
    /// Memory ran out.
    OutOfMemory,
}

impl From<NoMemory> for LearnFault {
    ghost use Rattle.hd_board.specs.declared.faults.LearnFault.TheVariants.{OutOfMemory};

    ghost from_gives = { λ _ e. e ≡ OutOfMemory };

    fn from(_error: NoMemory) -> LearnFault {
        LearnFault::OutOfMemory
    }
}

/// Why a board isn't closed with these desks. The board's log is answered.
#[derive(Drop)]
pub enum CloseFault {
    /// A desk's number isn't the board's, or the log doesn't continue what the desk has seen; or after the base the log has an
    /// event of a number that isn't the board's.
    Mismatch(Front),
    /// A number of the board is no desk's.
    MissingDesk(Front),
}
