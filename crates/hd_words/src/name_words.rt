//! The names of classes and fields as they are printed.
ghost use Rattle.std.specs.Prelude.{◌≡◌, ◌++◌, ◌<◌, flat_map, string_bytes, OnOk};
ghost use Rattle.std.specs.Option.{option_copied};
ghost use Rattle.hd_lines.specs.Names.{escaped, name_text, hex_digit_text, name_byte};

use std::alloc::AllocError;

/// Puts the name of a class or a field behind a text, a question mark where there is none, or an empty one. Bytes that aren't
/// printing characters, and the backslash, are put as `\x` and two hexadecimal digits.
pub fn put_name(text: &mut String, name: Option<&[u8]>) -> Result<(), AllocError>
    ensures { OnOk result (string_bytes text.new ≡ string_bytes text.old ++ name_text (option_copied name.entry)) }
{
    match name {
        Some(bytes) if !bytes.is_empty() => put_name_bytes(text, bytes),
        _ => text.push('?'),
    }
}

/// Puts the bytes of a name behind a text.
#[tactic(auto, using(crate::proofs::FlatMaps::flat_push, crate::proofs::FlatMaps::flat_all))]
fn put_name_bytes(text: &mut String, name: &[u8]) -> Result<(), AllocError>
    ensures { OnOk result (string_bytes text.new ≡ string_bytes text.old ++ flat_map name_byte name.now) }
{
    for byte in name {
        put_name_byte(text, *byte)?;
    }
    Ok(())
}

/// Puts a byte of a name behind a text.
fn put_name_byte(text: &mut String, byte: u8) -> Result<(), AllocError>
    ensures { OnOk result (string_bytes text.new ≡ string_bytes text.old ++ name_byte byte) }
{
    match byte {
        b'\\' => put_escaped(text, byte),
        0x21..=0x7e => text.push(char::from(byte)),
        _ => put_escaped(text, byte),
    }
}

/// Puts a byte behind a text as `\x` and two hexadecimal digits.
fn put_escaped(text: &mut String, byte: u8) -> Result<(), AllocError>
    ensures { OnOk result (string_bytes text.new ≡ string_bytes text.old ++ escaped byte) }
{
    text.push_str("\\x")?;
    text.push(hexadecimal_digit(byte / 16))?;
    text.push(hexadecimal_digit(byte % 16))
}

/// A hexadecimal digit in lower case.
fn hexadecimal_digit(value: u8) -> char
    requires { value < 16 }
    ensures { result ≡ hex_digit_text value }
{
    let digit = if value < 10 {
        b'0' + value
    } else {
        b'a' + (value - 10)
    };
    char::from(digit)
}
