//! The numbers that words spell.
ghost use Rattle.std.specs.Prelude.{◌≡◌, ◌<◌, ◌≤◌, ◌*◌, ◌^◌, length, IfSome};
ghost use Rattle.hd_lines.specs.Lines.{id_digits, number_of_word, root_of_word, hex_digit, digit_in, number_in};

/// The number of at most 32 bits that 1 to 10 decimal digits spell.
pub(crate) fn read_small(word: &[u8]) -> Option<u32>
    ensures { result ≡ number_of_word word.now }
{
    if word.is_empty() || word.len() > 10 {
        return None;
    }
    let number = read_number(10, word)?;
    if number > u128::from(u32::MAX) {
        return None;
    }
    Some(number as u32)
}

/// The number of a root, at most 64 bits, that 1 to 20 decimal digits spell.
pub(crate) fn read_root(word: &[u8]) -> Option<u64>
    ensures { result ≡ root_of_word word.now }
{
    if word.is_empty() || word.len() > 20 {
        return None;
    }
    let number = read_number(10, word)?;
    if number > u128::from(u64::MAX) {
        return None;
    }
    Some(number as u64)
}

/// The number of at most 64 bits that 1 to 16 hexadecimal digits spell.
pub(crate) fn read_hexadecimal(digits: &[u8]) -> Option<u64>
    ensures { result ≡ id_digits digits.now }
{
    if digits.is_empty() || digits.len() > 16 {
        return None;
    }
    let number = read_number(16, digits)?;
    Some(number as u64)
}

/// The number that at most 20 digits of a base of at most 16 spell.
fn read_number(base: u128, digits: &[u8]) -> Option<u128>
    requires base { base ≤ 16 }
    requires few { length digits.now ≤ 20 }
    ensures number { result ≡ number_in base digits.now }
    ensures small { IfSome result (λ number. number < 2 ^ (4 * length digits.now)) }
{
    let mut number = 0;
    for byte in digits {
        let Some(digit) = digit_of(base, *byte) else {
            return None;
        };
        number = base * number + digit;
    }
    Some(number)
}

/// The value of a digit in a base of at most 16.
fn digit_of(base: u128, byte: u8) -> Option<u128>
    ensures value { result ≡ digit_in base byte }
    ensures small { IfSome result (λ digit. digit < base) }
{
    let digit = hexadecimal(byte)?;
    if digit < base { Some(digit) } else { None }
}

/// The value of a hexadecimal digit of either case.
fn hexadecimal(byte: u8) -> Option<u128>
    ensures { result ≡ hex_digit byte }
{
    match byte {
        b'0'..=b'9' => Some(u128::from(byte - b'0')),
        b'a'..=b'f' => Some(u128::from(byte - b'a' + 10)),
        b'A'..=b'F' => Some(u128::from(byte - b'A' + 10)),
        _ => None,
    }
}
