//! What a line of an analyst asks for.
use hd_terms::{Edit, Group, Strength};

/// What a line asks. A query changes nothing.
#[derive(Clone, Copy)]
pub enum Query {
    /// The strength of the object of an ID.
    Strength(u64),
    /// A chain from a root to the object of an ID.
    Chain(u64),
    /// The slots of the object of an ID.
    Slots(u64),
    /// The references to the object of an ID.
    Into(u64),
    /// The roots, those of the dump and those that were added.
    Roots,
    /// The groups that have objects of a strength.
    Classes(Strength),
    /// The objects of a group that have a strength.
    Members(Group, Strength),
    /// The objects that have become unreachable since the mark of a number.
    Fell(u32),
    /// The events of the log.
    Events,
    /// The group, the recorded bytes, the strength and the name of the object of an ID.
    Object(u64),
    /// The groups that have objects of a strength, those with the most bytes first.
    Top(Strength),
    /// How much has become unreachable since the mark of a number, in all and by groups, those with the most bytes first.
    Freed(u32),
    /// How many objects had one strength at the mark of a number and have another one now.
    Moved(u32),
    /// The groups whose printed names contain the last word of the line, with how many objects of each strength they have.
    Find,
}

/// A command, as a line spells it.
#[derive(Clone, Copy)]
pub enum Command {
    /// A query, and how many lines of its answer are wanted at most; without a number all.
    Ask(Option<u32>, Query),
    /// Replies show names from here on, or no longer.
    Names(bool),
    /// An edit is added to the log.
    Edit(Edit),
    /// The event of a number is taken back; without a number the last of the analyst's own edits that is live.
    Undo(Option<u32>),
    /// The log as it is now is kept, to be compared with later.
    Mark,
    /// A private part begins: from here on the log is the analyst's own.
    Private,
    /// The private part ends, and its events with it.
    Back,
    /// The end of the session.
    Quit,
}

/// Why a line is no command. The first that holds is answered.
#[derive(Clone, Copy, Debug, PartialEq, Eq)]
pub enum LineFault {
    /// It has more than 4,096 bytes before its newline.
    LineTooLong,
    /// Its first word is no command, or it has no word.
    UnknownCommand,
    /// The words after the first are not what the command takes.
    BadArgument,
}
