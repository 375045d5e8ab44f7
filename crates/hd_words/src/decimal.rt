//! How numbers are written in decimal.
ghost use Rattle.std.specs.Prelude.{◌≡◌, ◌++◌, decimal, string_bytes, OnOk};

use itoa::Buffer;
use std::alloc::AllocError;

/// Puts a number behind a text, in decimal.
///
/// # Errors
///
/// Memory ran out.
pub fn put_decimal(text: &mut String, number: u64) -> Result<(), AllocError>
    ensures { OnOk result (string_bytes text.new ≡ string_bytes text.old ++ decimal number) }
{
    let mut buffer = Buffer::new();
    text.push_str(buffer.format(number))?;
    Ok(())
}
