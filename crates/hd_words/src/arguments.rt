//! The arguments of commands: what single words spell.
ghost use Rattle.std.specs.Prelude.{◌≡◌};
ghost use Rattle.std.specs.List.{list_all};
ghost use Rattle.std.specs.Option.{option_and_then};
ghost use Rattle.hd_lines.specs.Lines.{field_of_slot, find_of_word, id_of_word, is_printing, kind_of_word, number_of_word, only_word, root_of_word, slot_of_word, strength_of_word, switch_of_word};
ghost use Rattle.hd_words.specs.Words.{words_between};

use crate::kind_words::read_kind;
use crate::numbers::{read_hexadecimal, read_root, read_small};
use crate::slot_words::read_slot;
use crate::strength_words::read_strength;
use crate::words::only_word;
use hd_lines::Query;
use hd_terms::{RefKind, Slot, Strength};

/// The ID that the only word spells.
pub(crate) fn read_only_id(rest: &[u8]) -> Option<u64>
    ensures { result ≡ option_and_then id_of_word (only_word (words_between rest.now)) }
{
    read_id(only_word(rest)?)
}

/// The slot that the only word spells.
pub(crate) fn read_only_slot(rest: &[u8]) -> Option<Slot>
    ensures { result ≡ option_and_then slot_of_word (only_word (words_between rest.now)) }
{
    read_slot(only_word(rest)?)
}

/// The number of the field that the only word spells.
pub(crate) fn read_only_field(rest: &[u8]) -> Option<u32>
    ensures { result ≡ option_and_then field_of_slot (option_and_then slot_of_word (only_word (words_between rest.now))) }
{
    match read_only_slot(rest)? {
        Slot::Field(field) => Some(field),
        Slot::Element(_) | Slot::Static(_) | Slot::Const(_) | Slot::OfClass => None,
        Slot::Super | Slot::Loader | Slot::Signers | Slot::Domain => None,
    }
}

/// The number of a root that the only word spells.
pub(crate) fn read_only_root(rest: &[u8]) -> Option<u64>
    ensures { result ≡ option_and_then root_of_word (only_word (words_between rest.now)) }
{
    read_root(only_word(rest)?)
}

/// The kind of reference objects that the only word spells.
pub(crate) fn read_only_kind(rest: &[u8]) -> Option<RefKind>
    ensures { result ≡ option_and_then kind_of_word (only_word (words_between rest.now)) }
{
    read_kind(only_word(rest)?)
}

/// The number of an event or a mark that the only word spells.
pub(crate) fn read_only_number(rest: &[u8]) -> Option<u32>
    ensures { result ≡ option_and_then number_of_word (only_word (words_between rest.now)) }
{
    read_small(only_word(rest)?)
}

/// The ID that a word spells.
pub(crate) fn read_id(word: &[u8]) -> Option<u64>
    ensures { result ≡ id_of_word word.now }
{
    if word.len() < 2 || word[0] != b'0' || word[1] != b'x' {
        return None;
    }
    read_hexadecimal(&word[2..])
}

/// The strength that the only word spells.
pub(crate) fn read_only_strength(rest: &[u8]) -> Option<Strength>
    ensures { result ≡ option_and_then strength_of_word (only_word (words_between rest.now)) }
{
    read_strength(only_word(rest)?)
}

/// Whether all bytes of a word print as one character each.
fn is_printing(word: &[u8]) -> bool
    ensures { result ≡ list_all is_printing word.now }
{
    for byte in word {
        if *byte < 0x21 || *byte > 0x7e {
            return false;
        }
    }
    true
}

/// The query for the only word, if its bytes print as one character each.
pub(crate) fn read_only_find(rest: &[u8]) -> Option<Query>
    ensures { result ≡ option_and_then find_of_word (only_word (words_between rest.now)) }
{
    let word = only_word(rest)?;
    if is_printing(word) {
        Some(Query::Find)
    } else {
        None
    }
}

/// Whether the only word is `on` or `off`.
pub(crate) fn read_only_switch(rest: &[u8]) -> Option<bool>
    ensures { result ≡ option_and_then switch_of_word (only_word (words_between rest.now)) }
{
    let word = only_word(rest)?;
    if word == b"on".as_slice() {
        Some(true)
    } else if word == b"off".as_slice() {
        Some(false)
    } else {
        None
    }
}
