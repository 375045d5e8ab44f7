//! The words of groups, as they are written and read, and the names of the groups of arrays.
ghost use Rattle.std.specs.Prelude.{◌≡◌, ◌++◌, string_bytes, OnOk};
ghost use Rattle.hd_lines.specs.Lines.{array_group_of_word, group_of_word};
ghost use Rattle.hd_lines.specs.Names.{array_name, group_text};

use crate::arguments::read_id;
use crate::decimal::put_decimal;
use hd_terms::Group;
use std::alloc::AllocError;
use std::fmt::Write;

/// Puts a group behind a text, as a line spells it.
pub fn put_group(text: &mut String, group: Group) -> Result<(), AllocError>
    ensures { OnOk result (string_bytes text.new ≡ string_bytes text.old ++ group_text group) }
{
    match group {
        Group::Class(id) => write!(text, "0x{id:x}")?,
        Group::Prim(element) => {
            text.push_str("t")?;
            put_decimal(text, u64::from(element))?;
        }
        Group::Classes => text.push_str("c")?,
    }
    Ok(())
}

/// The name of the arrays of a basic type.
pub fn array_text(element: u8) -> &'static str
    ensures { result.now ≡ array_name element }
{
    match element {
        4 => "boolean[]",
        5 => "char[]",
        6 => "float[]",
        7 => "double[]",
        8 => "byte[]",
        9 => "short[]",
        10 => "int[]",
        11 => "long[]",
        _ => "?",
    }
}

/// The group that a word spells.
pub(crate) fn read_group(word: &[u8]) -> Option<Group>
    ensures { result ≡ group_of_word word.now }
{
    if word == b"c".as_slice() {
        return Some(Group::Classes);
    }
    match read_array_group(word) {
        Some(group) => Some(group),
        None => Some(Group::Class(read_id(word)?)),
    }
}

/// The group of primitive arrays that a word spells.
fn read_array_group(word: &[u8]) -> Option<Group>
    ensures { result ≡ array_group_of_word word.now }
{
    if word == b"t4".as_slice() {
        Some(Group::Prim(4))
    } else if word == b"t5".as_slice() {
        Some(Group::Prim(5))
    } else if word == b"t6".as_slice() {
        Some(Group::Prim(6))
    } else if word == b"t7".as_slice() {
        Some(Group::Prim(7))
    } else if word == b"t8".as_slice() {
        Some(Group::Prim(8))
    } else if word == b"t9".as_slice() {
        Some(Group::Prim(9))
    } else if word == b"t10".as_slice() {
        Some(Group::Prim(10))
    } else if word == b"t11".as_slice() {
        Some(Group::Prim(11))
    } else {
        None
    }
}
