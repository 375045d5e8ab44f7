//! What can go wrong: why a dump can't be read, with the file offset; why a command is refused; and that memory ran out.
ghost use Rattle.std.specs.Prelude.{◌≡◌};

use std::alloc::{AllocError, AllocFailed};

/// Memory ran out.
#[derive(Clone, Copy, Debug, PartialEq, Eq)]
pub struct NoMemory;

impl From<AllocError> for NoMemory {
    fn from(_error: AllocError) -> NoMemory {
        NoMemory
    }
}

impl<T: Drop> From<AllocFailed<T>> for NoMemory {
    fn from(_error: AllocFailed<T>) -> NoMemory {
        NoMemory
    }
}

/// Why a log doesn't take an event. The first that holds is answered.
#[derive(Clone, Copy, Debug, PartialEq, Eq)]
pub enum LogFault {
    /// An undo names no event, or one that is an undo itself.
    NoSuchEvent,
    /// An undo names another analyst's event.
    NotYours,
    /// An undo names an event that was taken back already.
    NotLive,
    /// The log has 4,096 events already.
    LogFull,
    /// Memory ran out.
    OutOfMemory,
}

impl From<AllocError> for LogFault {
    ghost use Rattle.hd_terms.specs.declared.errors.LogFault.TheVariants.{OutOfMemory};

    ghost from_gives = { λ _ e. e ≡ OutOfMemory };

    fn from(_error: AllocError) -> LogFault {
        LogFault::OutOfMemory
    }
}

impl<T: Drop> From<AllocFailed<T>> for LogFault {
    ghost use Rattle.hd_terms.specs.declared.errors.LogFault.TheVariants.{OutOfMemory};

    ghost from_gives = { λ _ e. e ≡ OutOfMemory };

    fn from(_error: AllocFailed<T>) -> LogFault {
        LogFault::OutOfMemory
    }
}

/// Why a command is refused. The first that holds is answered.
#[derive(Clone, Copy, Debug, PartialEq, Eq)]
pub enum Refusal {
    /// No object of the dump has the ID.
    NoSuchObject,
    /// No object of the dump is counted under a class of the ID.
    NoSuchClass,
    /// The object doesn't have the slot, or no object of the class has it.
    NoSuchSlot,
    /// The slot isn't a field, an element or a static.
    NotCuttable,
    /// The object has no referent slot.
    NotReference,
    /// The slot is null, or its ID is no object's.
    EmptySlot,
    /// None of the analyst's own edits is live.
    NothingToUndo,
    /// A root has this number neither in the dump nor by a live edit that adds it.
    NoSuchRoot,
    /// The analyst has no mark of this number.
    NoSuchMark,
    /// The analyst has 16 marks, and takes no more.
    MarksFull,
    /// A private part is open already.
    AlreadyPrivate,
    /// No private part is open.
    NotPrivate,
    /// Memory ran out as the analyst's desk caught up with the board's log.
    Behind,
    /// The board's log doesn't continue what the analyst's desk has seen.
    Foreign,
    /// The log doesn't take the event.
    Log(LogFault),
}

/// Why a dump can't be read.
#[derive(Clone, Copy, Debug, PartialEq, Eq)]
pub enum Cause {
    /// The first 19 bytes aren't `JAVA PROFILE 1.0.2` or `JAVA PROFILE 1.0.1` and a zero byte.
    BadMagic,
    /// The identifier size is neither 4 nor 8.
    BadIdSize,
    /// The header, a record's head or a record's body runs past the end of the file.
    Truncated,
    /// A record's body is shorter than its fields.
    ShortRecord,
    /// A sub-record runs past its segment.
    ShortSub,
    /// No sub-record has this tag.
    UnknownSub,
    /// No basic type has this number, or an array can have no elements of it.
    UnknownType,
    /// An object has the ID 0, which stands for null.
    NullObject,
    /// The chain of super classes of a class never ends.
    ClassCycle,
    /// An instance's values don't have the size of the fields of its class and the classes above it.
    InstanceSize,
    /// The file has more than 2,147,483,647 bytes.
    TooLarge,
    /// Memory ran out.
    OutOfMemory,
}

/// A dump's fault, and its place: an offset into the file in bytes, 0 where memory ran out.
#[derive(Clone, Copy, Debug, PartialEq, Eq)]
pub struct ReadFault {
    /// What is wrong.
    pub cause: Cause,
    /// Where, in bytes from the start of the file, from 0.
    pub offset: u64,
}

impl ReadFault {
    /// Memory ran out, which has no file offset.
    pub const NO_MEMORY: ReadFault = ReadFault {
        cause: Cause::OutOfMemory,
        offset: 0,
    };
}

impl From<AllocError> for ReadFault {
    ghost use Rattle.hd_terms.specs.declared.errors.Cause.TheVariants.{OutOfMemory};

    ghost from_gives = { λ _ e. e ≡ record { cause = OutOfMemory; offset = 0 } };

    fn from(_error: AllocError) -> ReadFault {
        ReadFault::NO_MEMORY
    }
}

impl<T: Drop> From<AllocFailed<T>> for ReadFault {
    ghost use Rattle.hd_terms.specs.declared.errors.Cause.TheVariants.{OutOfMemory};

    ghost from_gives = { λ _ e. e ≡ record { cause = OutOfMemory; offset = 0 } };

    fn from(_error: AllocFailed<T>) -> ReadFault {
        ReadFault::NO_MEMORY
    }
}
