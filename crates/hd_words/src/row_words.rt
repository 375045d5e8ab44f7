//! Slots, references and roots as they are written, without names.
ghost use Rattle.std.specs.Prelude.{◌≡◌, ◌++◌, string_bytes, OnOk};
ghost use Rattle.hd_lines.specs.Names.{id_text};
ghost use Rattle.hd_lines.specs.Replies.{mode_name, plain_into_line, plain_root_line, plain_slot_line};

use crate::decimal::put_decimal;
use crate::kind_words::kind_text;
use crate::root_words::{root_mode_text, root_text};
use crate::slot_words::put_slot;
use hd_terms::{IntoRow, RootRow, SlotMode, SlotRow};
use std::alloc::AllocError;
use std::fmt::Write;

/// Puts an ID behind a text.
pub fn put_id(text: &mut String, id: u64) -> Result<(), AllocError>
    ensures { OnOk result (string_bytes text.new ≡ string_bytes text.old ++ id_text id) }
{
    write!(text, "0x{id:x}")?;
    Ok(())
}

/// Puts a slot behind a text: `SLOT KIND ID MODE`.
pub fn put_slot_row(text: &mut String, row: &SlotRow) -> Result<(), AllocError>
    ensures { OnOk result (string_bytes text.new ≡ string_bytes text.old ++ plain_slot_line row.now) }
{
    put_slot(text, row.slot)?;
    let kind = kind_text(row.kind);
    let id = row.id;
    let mode = mode_text(row.mode);
    write!(text, " {kind} 0x{id:x} {mode}")?;
    Ok(())
}

/// Puts a reference to an object behind a text: `SOURCE SLOT KIND MODE`.
pub fn put_into_row(text: &mut String, row: &IntoRow) -> Result<(), AllocError>
    ensures { OnOk result (string_bytes text.new ≡ string_bytes text.old ++ plain_into_line row.now) }
{
    let source = row.source;
    write!(text, "0x{source:x} ")?;
    put_slot(text, row.slot)?;
    let kind = kind_text(row.kind);
    let mode = mode_text(row.mode);
    write!(text, " {kind} {mode}")?;
    Ok(())
}

/// Puts a root behind a text: `R KIND ID MODE`.
pub fn put_root_row(text: &mut String, row: &RootRow) -> Result<(), AllocError>
    ensures { OnOk result (string_bytes text.new ≡ string_bytes text.old ++ plain_root_line row.now) }
{
    let kind = root_text(row.kind);
    let id = row.id;
    let mode = root_mode_text(row.mode);
    put_decimal(text, row.number)?;
    write!(text, " {kind} 0x{id:x} {mode}")?;
    Ok(())
}

/// How a slot stands, as it is printed.
fn mode_text(mode: SlotMode) -> &'static str
    ensures { result.now ≡ mode_name mode }
{
    match mode {
        SlotMode::Stands => "stands",
        SlotMode::Cut => "cut",
        SlotMode::Null => "null",
        SlotMode::Absent => "absent",
    }
}
