//! The line of a message.
ghost use Rattle.std.specs.Prelude.{◌≡◌};
ghost use Rattle.std.specs.Io.BufRead.{strip_last};
ghost use Rattle.hd_web.specs.Messages.{is_cut, line_of};

use hd_words::LONGEST_LINE;

/// A line with an argument that no command has.
const BAD_LINE: &[u8] = b"quit now";

/// Whether a newline cuts a text that isn't too long for a line.
fn is_cut(text: &[u8]) -> bool
    ensures { result ≡ is_cut text.now }
{
    text.len() <= LONGEST_LINE && text.contains(&b'\n')
}

/// A text without one newline at its end.
fn without_newline(text: &[u8]) -> &[u8]
    ensures { result.now ≡ strip_last 10 text.now }
{
    let n = text.len();
    if n > 0 && text[n - 1] == b'\n' {
        &text[..n - 1]
    } else {
        text
    }
}

/// The line that a text message is. A newline at its end is dropped. A message that a newline cuts in two stands for a line with
/// a bad argument.
pub(crate) fn line_of(text: &[u8]) -> &[u8]
    ensures { result.now ≡ line_of text.now }
{
    let line = without_newline(text);
    if is_cut(line) { BAD_LINE } else { line }
}
