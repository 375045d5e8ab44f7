//! The words of a line: numbers, bytes and types.
use crate::Mistake;

/// The first word of a text and what stands behind the space after it.
pub fn first_word(text: &str) -> (&str, &str) {
    text.split_once(' ').unwrap_or((text, ""))
}

/// The number that hexadecimal digits spell.
pub fn read_number(word: &str) -> Result<u64, Mistake> {
    match u64::from_str_radix(word, 16) {
        Ok(number) => Ok(number),
        Err(_) => Err(Mistake::WrongWord),
    }
}

/// The number of one byte that hexadecimal digits spell.
pub fn read_byte(word: &str) -> Result<u8, Mistake> {
    match u8::from_str_radix(word, 16) {
        Ok(byte) => Ok(byte),
        Err(_) => Err(Mistake::WrongWord),
    }
}

/// The value of one hexadecimal digit.
pub fn read_digit(digit: u8) -> Result<u8, Mistake> {
    match digit {
        b'0'..=b'9' => Ok(digit - b'0'),
        b'a'..=b'f' => Ok(digit - b'a' + 10),
        _ => Err(Mistake::WrongWord),
    }
}

/// The number of a type that a word names, or that hexadecimal digits spell.
pub fn read_type(word: &str) -> Result<u8, Mistake> {
    match word {
        "object" => Ok(2),
        "boolean" => Ok(4),
        "char" => Ok(5),
        "float" => Ok(6),
        "double" => Ok(7),
        "byte" => Ok(8),
        "short" => Ok(9),
        "int" => Ok(10),
        "long" => Ok(11),
        _ => read_byte(word),
    }
}

/// What a line names before its colon: an ID, and the ID behind a word, as in `12 extends 11`; 0 where that is left out.
pub fn read_pair(text: &str, word: &str) -> Result<(u64, u64), Mistake> {
    let (id, rest) = first_word(text);
    let id = read_number(id)?;
    if rest.is_empty() {
        return Ok((id, 0));
    }
    let (between, other) = first_word(rest);
    if between != word {
        return Err(Mistake::WrongWord);
    }
    let other = read_number(other)?;
    Ok((id, other))
}
