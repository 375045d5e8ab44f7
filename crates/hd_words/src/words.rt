//! The words of a line: what stands between its spaces.
ghost use Rattle.std.specs.Prelude.{◌≡◌, ◌≢◌, ℕ, ◌<◌, ◌≤◌, [], ◌∷◌, length, drop, slice_index, MatchOption};
ghost use Rattle.std.specs.Io.BufRead.{strip_last};
ghost use Rattle.std.specs.Option.{option_copied};
ghost use Rattle.hd_lines.specs.Lines.{last_of, last_word, only_word};
ghost use Rattle.hd_words.specs.Words.{words_between};

/// The most bytes of a line before its newline.
pub const LONGEST_LINE: usize = 4096;

/// A line without one carriage return at its end.
pub(crate) fn without_return(line: &[u8]) -> &[u8]
    ensures { result.now ≡ strip_last 13 line.now }
{
    let n = line.len();
    if n > 0 && line[n - 1] == b'\r' {
        &line[..n - 1]
    } else {
        line
    }
}

/// How many spaces some bytes begin with.
fn spaces(bytes: &[u8]) -> usize
    ensures within { result ≤ length bytes.now }
    ensures words { words_between (drop result bytes.now) ≡ words_between bytes.now }
    ensures stops { result < length bytes.now → slice_index bytes.now result ≢ 32 }
{
    for (i, byte) in bytes.iter().enumerate() {
        if *byte != b' ' {
            return i;
        }
    }
    bytes.len()
}

/// How many bytes come before the first space.
fn until_space(bytes: &[u8]) -> usize
    ensures within { result ≤ length bytes.now }
    ensures before { (k : ℕ) → k < result → slice_index bytes.now k ≢ 32 }
    ensures stops { result < length bytes.now → slice_index bytes.now result ≡ 32 }
{
    for (i, byte) in bytes.iter().enumerate() {
        if *byte == b' ' {
            return i;
        }
    }
    bytes.len()
}

/// The first word, and what follows it.
pub(crate) fn split_word(bytes: &[u8]) -> Option<(&[u8], &[u8])>
    ensures { MatchOption result (words_between bytes.now ≡ []) (λ p. words_between bytes.now ≡ p.0.now ∷ words_between p.1.now) }
{
    let rest = &bytes[spaces(bytes)..];
    if rest.is_empty() {
        return None;
    }
    let end = until_space(rest);
    Some((&rest[..end], &rest[end..]))
}

/// The only word, if there is one and no other.
pub(crate) fn only_word(bytes: &[u8]) -> Option<&[u8]>
    ensures { option_copied result ≡ only_word (words_between bytes.now) }
{
    let (word, more) = split_word(bytes)?;
    if split_word(more).is_some() {
        return None;
    }
    Some(word)
}

/// The last of the words, if there is one; else no bytes.
fn last_of(words: &[u8]) -> &[u8]
    ensures { result.now ≡ last_of [] (words_between words.now) }
{
    let mut last: &[u8] = &[];
    let mut rest = words;
    while let Some((word, more)) = split_word(rest) {
        last = word;
        rest = more;
    }
    last
}

/// The last word of a line, if it has one and isn't too long; else no bytes.
pub fn last_word(line: &[u8]) -> &[u8]
    ensures { result.now ≡ last_word line.now }
{
    if line.len() > LONGEST_LINE {
        return &[];
    }
    last_of(without_return(line))
}
