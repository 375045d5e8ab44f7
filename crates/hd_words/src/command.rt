//! The commands that lines spell.
ghost use Rattle.std.specs.Prelude.{◌≡◌};
ghost use Rattle.hd_lines.specs.Lines.{asks, bare, change_command, command_of, cut_command, cutall_command, head_command, members_query, names_command, query_of, spelled, undo_command};
ghost use Rattle.hd_words.specs.Words.{words_between};

use crate::arguments::{
    read_id, read_only_field, read_only_find, read_only_id, read_only_kind, read_only_number,
    read_only_root, read_only_slot, read_only_strength, read_only_switch,
};
use crate::group_words::read_group;
use crate::numbers::read_small;
use crate::words::{LONGEST_LINE, split_word, without_return};
use hd_lines::{Command, LineFault, Query};
use hd_terms::Edit;

/// The command that a line spells, or the first of its faults.
pub fn read_command(line: &[u8]) -> Result<Command, LineFault>
    ensures { result ≡ command_of line.now }
{
    if line.len() > LONGEST_LINE {
        return Err(LineFault::LineTooLong);
    }
    let Some((word, rest)) = split_word(without_return(line)) else {
        return Err(LineFault::UnknownCommand);
    };
    if word == b"head".as_slice() {
        read_head(rest)
    } else if word == b"names".as_slice() {
        spelled(read_only_switch(rest).map(|on| Command::Names(on)))
    } else if word == b"mark".as_slice() {
        read_bare(Command::Mark, rest)
    } else if word == b"private".as_slice() {
        read_bare(Command::Private, rest)
    } else if word == b"back".as_slice() {
        read_bare(Command::Back, rest)
    } else if word == b"quit".as_slice() {
        read_bare(Command::Quit, rest)
    } else {
        read_change(word, rest)
    }
}

/// The command that changes the log, or a query, by its first word and what follows it.
fn read_change(word: &[u8], rest: &[u8]) -> Result<Command, LineFault>
    ensures { result ≡ change_command word.now (words_between rest.now) }
{
    if word == b"cut".as_slice() {
        read_cut(rest)
    } else if word == b"clear".as_slice() {
        spelled(read_only_id(rest).map(|id| Command::Edit(Edit::Clear(id))))
    } else if word == b"drop".as_slice() {
        spelled(read_only_root(rest).map(|root| Command::Edit(Edit::Drop(root))))
    } else if word == b"add".as_slice() {
        spelled(read_only_id(rest).map(|id| Command::Edit(Edit::Add(id))))
    } else if word == b"clearall".as_slice() {
        spelled(read_only_kind(rest).map(|kind| Command::Edit(Edit::ClearAll(kind))))
    } else if word == b"cutall".as_slice() {
        read_cut_all(rest)
    } else if word == b"undo".as_slice() {
        read_undo(rest)
    } else {
        ask_all(read_query(word, rest))
    }
}

/// The query of a first word and what follows it, or the first of its faults.
fn read_query(word: &[u8], rest: &[u8]) -> Result<Query, LineFault>
    ensures { result ≡ query_of word.now (words_between rest.now) }
{
    if word == b"strength".as_slice() {
        spelled(read_only_id(rest).map(|id| Query::Strength(id)))
    } else if word == b"chain".as_slice() {
        spelled(read_only_id(rest).map(|id| Query::Chain(id)))
    } else if word == b"slots".as_slice() {
        spelled(read_only_id(rest).map(|id| Query::Slots(id)))
    } else if word == b"into".as_slice() {
        spelled(read_only_id(rest).map(|id| Query::Into(id)))
    } else if word == b"object".as_slice() {
        spelled(read_only_id(rest).map(|id| Query::Object(id)))
    } else if word == b"roots".as_slice() {
        read_bare(Query::Roots, rest)
    } else if word == b"classes".as_slice() {
        spelled(read_only_strength(rest).map(|strength| Query::Classes(strength)))
    } else if word == b"members".as_slice() {
        read_members(rest)
    } else if word == b"fell".as_slice() {
        spelled(read_only_number(rest).map(|mark| Query::Fell(mark)))
    } else if word == b"events".as_slice() {
        read_bare(Query::Events, rest)
    } else if word == b"top".as_slice() {
        spelled(read_only_strength(rest).map(|strength| Query::Top(strength)))
    } else if word == b"freed".as_slice() {
        spelled(read_only_number(rest).map(|mark| Query::Freed(mark)))
    } else if word == b"moved".as_slice() {
        spelled(read_only_number(rest).map(|mark| Query::Moved(mark)))
    } else if word == b"find".as_slice() {
        spelled(read_only_find(rest))
    } else {
        Err(LineFault::UnknownCommand)
    }
}

/// The command that asks for the whole answer to a query.
fn ask_all(query: Result<Query, LineFault>) -> Result<Command, LineFault>
    ensures { result ≡ asks query }
{
    match query {
        Ok(query) => Ok(Command::Ask(None, query)),
        Err(fault) => Err(fault),
    }
}

/// What follows `head` is a number of lines and a query.
fn read_head(rest: &[u8]) -> Result<Command, LineFault>
    ensures { result ≡ head_command (words_between rest.now) }
{
    let Some((number, more)) = split_word(rest) else {
        return Err(LineFault::BadArgument);
    };
    let Some((word, arguments)) = split_word(more) else {
        return Err(LineFault::BadArgument);
    };
    match (read_small(number), read_query(word, arguments)) {
        (Some(most), Ok(query)) => Ok(Command::Ask(Some(most), query)),
        _ => Err(LineFault::BadArgument),
    }
}

/// What the arguments spell, or that they spell nothing.
fn spelled<T: Copy>(reading: Option<T>) -> Result<T, LineFault>
    ensures { result ≡ spelled reading }
{
    match reading {
        Some(spelled) => Ok(spelled),
        None => Err(LineFault::BadArgument),
    }
}

/// What follows a word that stands alone is nothing.
fn read_bare<T: Copy>(alone: T, rest: &[u8]) -> Result<T, LineFault>
    ensures { result ≡ bare alone (words_between rest.now) }
{
    match split_word(rest) {
        Some(_) => Err(LineFault::BadArgument),
        None => Ok(alone),
    }
}

/// What follows `members` is a group and a strength.
fn read_members(rest: &[u8]) -> Result<Query, LineFault>
    ensures { result ≡ members_query (words_between rest.now) }
{
    let Some((word, more)) = split_word(rest) else {
        return Err(LineFault::BadArgument);
    };
    match (read_group(word), read_only_strength(more)) {
        (Some(group), Some(strength)) => Ok(Query::Members(group, strength)),
        _ => Err(LineFault::BadArgument),
    }
}

/// What follows `cut` is an ID and a slot.
fn read_cut(rest: &[u8]) -> Result<Command, LineFault>
    ensures { result ≡ cut_command (words_between rest.now) }
{
    let Some((word, more)) = split_word(rest) else {
        return Err(LineFault::BadArgument);
    };
    match (read_id(word), read_only_slot(more)) {
        (Some(id), Some(slot)) => Ok(Command::Edit(Edit::Cut(id, slot))),
        _ => Err(LineFault::BadArgument),
    }
}

/// What follows `cutall` is the ID of a class and a field.
fn read_cut_all(rest: &[u8]) -> Result<Command, LineFault>
    ensures { result ≡ cutall_command (words_between rest.now) }
{
    let Some((word, more)) = split_word(rest) else {
        return Err(LineFault::BadArgument);
    };
    match (read_id(word), read_only_field(more)) {
        (Some(id), Some(field)) => Ok(Command::Edit(Edit::CutAll(id, field))),
        _ => Err(LineFault::BadArgument),
    }
}

/// What follows `undo` is nothing, or the number of an event.
fn read_undo(rest: &[u8]) -> Result<Command, LineFault>
    ensures { result ≡ undo_command (words_between rest.now) }
{
    if split_word(rest).is_none() {
        return Ok(Command::Undo(None));
    }
    spelled(read_only_number(rest).map(|event| Command::Undo(Some(event))))
}
