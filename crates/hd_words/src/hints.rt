//! What a person at a terminal is told whose line is no command.
ghost use Rattle.std.specs.Prelude.{◌≡◌, is_some};
ghost use Rattle.hd_lines.specs.Lines.{command_of};
ghost use Rattle.hd_words.specs.Hints.{is_misspelled};

use crate::command::read_command;
use crate::words::{split_word, without_return};
use hd_lines::LineFault;

/// The words that lines begin with.
const COMMANDS: &str =
    "commands: strength, chain, slots, into, object, roots, find, classes, top, members, head, names, cut, clear, clearall, cutall, drop, add, undo, mark, fell, freed, moved, events, private, back, quit";

/// What would be right instead of a line that is no command: the form of the command where its first word is one, else the words
/// that there are. There is none for a command, and for a line that is too long.
pub fn hint_to(line: &[u8]) -> Option<&'static str>
    ensures { is_some result ≡ is_misspelled (command_of line.now) }
{
    match read_command(line) {
        Err(LineFault::UnknownCommand) => Some(COMMANDS),
        Err(LineFault::BadArgument) => Some(form_of(line)),
        _ => None,
    }
}

/// The form of the command that a line's first word is.
fn form_of(line: &[u8]) -> &'static str {
    let Some((word, _rest)) = split_word(without_return(line)) else {
        return COMMANDS;
    };
    match word {
        b"strength" => "strength ID",
        b"chain" => "chain ID",
        b"slots" => "slots ID",
        b"into" => "into ID",
        b"object" => "object ID",
        b"find" => "find TEXT, where TEXT is a part of a class's name, as find ThreadLocal",
        b"classes" =>
            "classes STRONG, or another strength: SOFT, WEAK, FINAL, PHANTOM, UNREACHABLE",
        b"top" => "top STRONG, or another strength: SOFT, WEAK, FINAL, PHANTOM, UNREACHABLE",
        b"members" =>
            "members G STRONG, or another strength; G is the ID of a class, t4 to t11, or c",
        b"fell" => "fell M, where M is the number of a mark, 0 for the start",
        b"freed" => "freed M, where M is the number of a mark, 0 for the start",
        b"moved" => "moved M, where M is the number of a mark, 0 for the start",
        b"head" => "head N QUERY, as head 20 members 0x11 STRONG",
        b"names" => "names on, or names off",
        b"cut" => "cut ID SLOT, as cut 0x1 f0",
        b"clear" => "clear ID",
        b"clearall" => "clearall soft, or another kind: weak, final, phantom",
        b"cutall" => "cutall ID fN, where ID is that of a class, as cutall 0x12 f0",
        b"drop" => "drop R, where R is the number of a root",
        b"add" => "add ID",
        b"undo" => "undo, or undo N, where N is the number of an event",
        _ => "this command takes no word behind it",
    }
}
