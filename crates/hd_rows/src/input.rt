//! What a session is given: lines of a case that spell what an analyst types.
use std::alloc::AllocError;

/// A line of a case that is put in: how often, whether a newline ends it, and its text.
#[derive(Clone, Copy)]
pub struct InputLine<'a> {
    times: u32,
    ends: bool,
    text: &'a str,
}

/// Whether a newline ends what stands behind this mark; nothing where it is no mark.
fn ends_by(mark: &str) -> Option<bool> {
    match mark {
        ">" => Some(true),
        "+" => Some(false),
        _ => None,
    }
}

/// What a line of a case puts in, as `> strength 0x2`, `+ quit` (no newline) or `4096 > cut 0x1 e0` (4,096 times);
/// nothing where it is another line.
pub fn read_input(line: &str) -> Option<InputLine<'_>> {
    let (first, rest) = line.split_once(' ').unwrap_or((line, ""));
    if let Some(ends) = ends_by(first) {
        return Some(InputLine {
            times: 1,
            ends,
            text: rest,
        });
    }
    let times = first.parse::<u32>().ok()?;
    let (mark, text) = rest.split_once(' ').unwrap_or((rest, ""));
    let ends = ends_by(mark)?;
    Some(InputLine { times, ends, text })
}

/// The byte that stands behind a backslash by its letter.
fn escaped(letter: u8) -> u8 {
    match letter {
        b'n' => b'\n',
        b'r' => b'\r',
        b's' => b' ',
        b't' => b'\t',
        _ => letter,
    }
}

/// Puts a text behind the input: `\n` is a newline, `\r` a carriage return, `\t` a tab, `\s` a space, `\\` a backslash.
fn put_text(input: &mut Vec<u8>, text: &str) -> Result<(), AllocError> {
    let mut is_escape = false;
    for byte in text.as_bytes() {
        if is_escape {
            input.push(escaped(*byte))?;
            is_escape = false;
        } else if *byte == b'\\' {
            is_escape = true;
        } else {
            input.push(*byte)?;
        }
    }
    Ok(())
}

/// Puts a line behind the input, as often as it says.
pub fn put_input(input: &mut Vec<u8>, line: InputLine<'_>) -> Result<(), AllocError> {
    for _ in 0..line.times {
        put_text(input, line.text)?;
        if line.ends {
            input.push(b'\n')?;
        }
    }
    Ok(())
}
