//! Replies of many lines: `ok N`, and a line for each of N rows.
ghost use Rattle.std.specs.Prelude.{◌≡◌, ◌∷◌, ◌++◌, ℕ, List, All, codes, decimal, map, string_bytes, IfOk, OnOk};
ghost use Rattle.std.specs.List.{flat_map};
ghost use Rattle.hd_lines.specs.Replies.{answered, with_newline};
ghost use Rattle.hd_terms.specs.Listed.{first_items};
ghost use Rattle.hd_words.specs.FirstLines.{first_count};

use crate::decimal::put_decimal;
use std::alloc::{AllocError, Global};

/// How rows are written as lines.
pub trait LineFormat {
    /// What a line is written of.
    type Row;

    /// The rows that can be written.
    ghost can_write: { Self → Self.Row → Type 0 };

    /// The line of a row.
    ghost line: { Self → Self.Row → List ℕ };

    /// Puts the line of a row behind a text, without the newline that ends it. What a format finds for one row it may keep for the
    /// next; no line depends on it.
    fn put(&mut self, text: &mut String, row: &Self::Row) -> Result<(), AllocError>
        requires { can_write self.old row.now }
        ensures line { OnOk result (string_bytes text.new ≡ string_bytes text.old ++ line self.old row.now) }
        ensures same { self.new ≡ self.old };
}

/// Puts the line of each row behind a text.
#[tactic(auto, using(crate::proofs::FlatMaps::flat_push))]
pub fn put_lines<F: LineFormat>(
    text: &mut String,
    format: &mut F,
    rows: &[F::Row],
) -> Result<(), AllocError>
    requires { All (F.can_write format.old) rows.now }
    ensures lines { OnOk result (string_bytes text.new ≡ string_bytes text.old ++ flat_map with_newline (map (F.line format.old) rows.now)) }
    ensures same { format.new ≡ format.old }
{
    for row in rows {
        put_line(text, format, row)?;
    }
    Ok(())
}

/// Puts the line of a row and its newline behind a text.
fn put_line<F: LineFormat>(
    text: &mut String,
    format: &mut F,
    row: &F::Row,
) -> Result<(), AllocError>
    requires { F.can_write format.old row.now }
    ensures line { OnOk result (string_bytes text.new ≡ string_bytes text.old ++ with_newline (F.line format.old row.now)) }
    ensures same { format.new ≡ format.old }
{
    format.put(text, row)?;
    text.push('\n')?;
    Ok(())
}

/// How many of `len` lines are written where `most` are wanted at most, all without a number.
fn count_of(len: usize, most: Option<u32>) -> usize
    ensures { result ≡ first_count len most }
{
    match most {
        Some(most) => (most as usize).min(len),
        None => len,
    }
}

/// Puts `ok N` and its newline behind a text.
fn put_count(text: &mut String, count: usize) -> Result<(), AllocError>
    ensures { OnOk result (string_bytes text.new ≡ string_bytes text.old ++ with_newline (codes "ok " ++ decimal count)) }
{
    text.push_str("ok ")?;
    put_decimal(text, count as u64)?;
    text.push('\n')?;
    Ok(())
}

/// `ok N`, and the line of each of N rows: the first ones where at most `most` are wanted.
pub fn lines_text<F: LineFormat>(
    alloc: Global,
    format: &mut F,
    rows: &[F::Row],
    most: Option<u32>,
) -> Result<String, AllocError>
    requires { All (F.can_write format.old) rows.now }
    ensures lines { IfOk result (λ text. string_bytes text ≡ answered (first_items most (map (F.line format.old) rows.now))) }
    ensures same { format.new ≡ format.old }
{
    let mut text = String::new(alloc);
    let count = count_of(rows.len(), most);
    put_count(&mut text, count)?;
    put_lines(&mut text, format, &rows[..count])?;
    Ok(text)
}

/// `ok N`, a first line, and the line of each row: the first ones where at most `most` are wanted.
pub fn lines_text_from<F: LineFormat>(
    alloc: Global,
    start: &str,
    format: &mut F,
    rows: &[F::Row],
    most: Option<u32>,
) -> Result<String, AllocError>
    requires { All (F.can_write format.old) rows.now }
    ensures lines { IfOk result (λ text. string_bytes text ≡ answered (first_items most (start.now ∷ map (F.line format.old) rows.now))) }
    ensures same { format.new ≡ format.old }
{
    let mut text = String::new(alloc);
    let Some(all) = rows.len().checked_add(1) else {
        return Err(AllocError);
    };
    let count = count_of(all, most);
    put_count(&mut text, count)?;
    if count > 0 {
        text.push_str(start)?;
        text.push('\n')?;
        put_lines(&mut text, format, &rows[..count - 1])?;
    }
    Ok(text)
}
