//! What events do, as it is printed: an edit as a line spells it, or an undo.
ghost use Rattle.std.specs.Prelude.{◌≡◌, ◌++◌, string_bytes, OnOk};
ghost use Rattle.hd_lines.specs.Replies.{edit_text, live_name, what_text};

use crate::decimal::put_decimal;
use crate::kind_words::kind_text;
use crate::slot_words::put_slot;
use hd_terms::{Edit, Slot, What};
use std::alloc::AllocError;
use std::fmt::Write;

/// Puts what an event does behind a text: an edit and whether it is live, or an undo.
pub fn put_what(text: &mut String, what: What, live: bool) -> Result<(), AllocError>
    ensures { OnOk result (string_bytes text.new ≡ string_bytes text.old ++ what_text live what) }
{
    match what {
        What::Do(edit) => {
            put_edit(text, edit)?;
            let name = live_text(live);
            write!(text, " {name}")?;
        }
        What::Undo(k) => {
            text.push_str("undo ")?;
            put_decimal(text, u64::from(k))?;
        }
    }
    Ok(())
}

/// Puts an edit behind a text, as a line spells it.
fn put_edit(text: &mut String, edit: Edit) -> Result<(), AllocError>
    ensures { OnOk result (string_bytes text.new ≡ string_bytes text.old ++ edit_text edit) }
{
    match edit {
        Edit::Cut(id, slot) => {
            write!(text, "cut 0x{id:x} ")?;
            put_slot(text, slot)?;
        }
        Edit::Clear(id) => write!(text, "clear 0x{id:x}")?,
        Edit::Drop(root) => {
            text.push_str("drop ")?;
            put_decimal(text, root)?;
        }
        Edit::Add(id) => write!(text, "add 0x{id:x}")?,
        Edit::ClearAll(kind) => {
            let name = kind_text(kind.edge_kind());
            write!(text, "clearall {name}")?;
        }
        Edit::CutAll(id, field) => {
            write!(text, "cutall 0x{id:x} ")?;
            put_slot(text, Slot::Field(field))?;
        }
    }
    Ok(())
}

/// Whether an edit is live, as it is printed.
fn live_text(live: bool) -> &'static str
    ensures { result.now ≡ live_name live }
{
    if live { "live" } else { "undone" }
}
