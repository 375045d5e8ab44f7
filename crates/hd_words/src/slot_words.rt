//! The words of slots, as they are written and read: a word for each kind, and behind it the number of one of many.
ghost use Rattle.std.specs.Prelude.{◌≡◌, ℕ, ◌++◌, string_bytes, OnOk};
ghost use Rattle.std.specs.Option.{option_map};
ghost use Rattle.hd_terms.specs.SlotKinds.{slot_of};
ghost use Rattle.hd_lines.specs.Lines.{slot_of_word, numbered_slot, lettered_slot};
ghost use Rattle.hd_lines.specs.Replies.{slot_name};
ghost use Rattle.hd_words.specs.SlotWords.{kind_word, has_number};

use crate::decimal::put_decimal;
use crate::numbers::read_small;
use hd_terms::{Slot, SlotKind};
use std::alloc::AllocError;

/// The word of a kind of slot, before the number where it has one.
fn word_of(kind: SlotKind) -> &'static str
    ensures { result.now ≡ kind_word kind }
{
    match kind {
        SlotKind::Field => "f",
        SlotKind::Element => "e",
        SlotKind::Static => "s",
        SlotKind::Const => "k",
        SlotKind::OfClass => "class",
        SlotKind::Super => "super",
        SlotKind::Loader => "loader",
        SlotKind::Signers => "signers",
        SlotKind::Domain => "domain",
    }
}

/// Whether a number follows the word of a kind of slot.
fn is_numbered(kind: SlotKind) -> bool
    ensures { result ≡ has_number kind }
{
    matches!(
        &kind,
        SlotKind::Field | SlotKind::Element | SlotKind::Static | SlotKind::Const
    )
}

/// Puts the name of a slot behind a text.
pub fn put_slot(text: &mut String, slot: Slot) -> Result<(), AllocError>
    ensures { OnOk result (string_bytes text.new ≡ string_bytes text.old ++ slot_name slot) }
{
    let (kind, number) = slot.parts();
    text.push_str(word_of(kind))?;
    if is_numbered(kind) {
        put_decimal(text, u64::from(number))?;
    }
    Ok(())
}

/// The slot that a word spells.
pub(crate) fn read_slot(word: &[u8]) -> Option<Slot>
    ensures { result ≡ slot_of_word word.now }
{
    if word == word_of(SlotKind::OfClass).as_bytes() {
        Some(Slot::OfClass)
    } else if word == word_of(SlotKind::Super).as_bytes() {
        Some(Slot::Super)
    } else if word == word_of(SlotKind::Loader).as_bytes() {
        Some(Slot::Loader)
    } else if word == word_of(SlotKind::Signers).as_bytes() {
        Some(Slot::Signers)
    } else if word == word_of(SlotKind::Domain).as_bytes() {
        Some(Slot::Domain)
    } else {
        read_numbered_slot(word)
    }
}

/// The slot that a letter and a number spell.
fn read_numbered_slot(word: &[u8]) -> Option<Slot>
    ensures { result ≡ numbered_slot word.now }
{
    let (letter, digits) = word.split_first()?;
    let number = read_small(digits)?;
    let kind = kind_of_letter(*letter)?;
    Some(kind.slot(number))
}

/// The kind of numbered slots whose word is a letter.
fn kind_of_letter(letter: u8) -> Option<SlotKind>
    ensures { (n : ℕ) → option_map (λ kind. slot_of kind n) result ≡ lettered_slot letter n }
{
    if letter == word_of(SlotKind::Field).as_bytes()[0] {
        Some(SlotKind::Field)
    } else if letter == word_of(SlotKind::Element).as_bytes()[0] {
        Some(SlotKind::Element)
    } else if letter == word_of(SlotKind::Static).as_bytes()[0] {
        Some(SlotKind::Static)
    } else if letter == word_of(SlotKind::Const).as_bytes()[0] {
        Some(SlotKind::Const)
    } else {
        None
    }
}
