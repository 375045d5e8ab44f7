//! How what moved between strengths is written as lines.
ghost use Rattle.std.specs.Prelude.{◌≡◌, ◌++◌, string_bytes, OnOk};

use crate::decimal::put_decimal;
use crate::lines::LineFormat;
use crate::strength_words::strength_text;
use hd_terms::MovedRow;
use std::alloc::AllocError;
use std::fmt::Write;

/// What moved between two strengths as lines: `BEFORE AFTER COUNT BYTES`.
#[derive(Drop)]
pub struct MovedLines;

impl LineFormat for MovedLines {
    type Row = MovedRow;

    ghost can_write = { λ _ _. Unit {0} };

    ghost use Rattle.hd_lines.specs.Replies.{moved_line};

    ghost line = { λ _ row. moved_line row };

    fn put(&mut self, text: &mut String, row: &MovedRow) -> Result<(), AllocError> {
        let before = strength_text(row.before);
        let after = strength_text(row.after);
        write!(text, "{before} {after} ")?;
        put_decimal(text, row.count)?;
        text.push_str(" ")?;
        put_decimal(text, row.bytes)
    }
}
