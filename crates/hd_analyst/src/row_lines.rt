//! Slots, references, roots and IDs as lines, with names or without.
ghost use Rattle.std.specs.Prelude.{◌≡◌, ◌++◌, string_bytes, OnOk};

use crate::naming::put_name_of_id;
use crate::places::Places;
use hd_graph::Graph;
use hd_terms::{IntoRow, RootRow, SlotRow};
use hd_words::{LineFormat, put_id, put_into_row, put_root_row, put_slot_row};
use std::alloc::AllocError;

/// Slots of an object as lines: `SLOT KIND ID MODE`, and with names `NAME PLACE`.
#[derive(Drop)]
pub(crate) struct SlotLines<'a> {
    pub(crate) places: Places<'a>,
    pub(crate) names: bool,
    /// The number of the object that has the slots.
    pub(crate) object: u32,
}

impl LineFormat for SlotLines<'_> {
    type Row = SlotRow;

    ghost use Rattle.std.specs.Prelude.{◌<◌, length};

    ghost can_write = { λ lines _. lines.object < length lines.places.objects };

    ghost use Rattle.hd_lines.specs.Replies.{slot_line};

    ghost line = { λ lines row. slot_line lines.places lines.names lines.object row };

    fn put(&mut self, text: &mut String, row: &SlotRow) -> Result<(), AllocError> {
        put_slot_row(text, row)?;
        if self.names {
            text.push(' ')?;
            put_name_of_id(text, self.places.graph(), row.id)?;
            text.push(' ')?;
            self.places.put(text, self.object, row.slot)?;
        }
        Ok(())
    }
}

/// References to an object as lines: `SOURCE SLOT KIND MODE`, and with names `NAME PLACE`.
#[derive(Drop)]
pub(crate) struct IntoLines<'a> {
    pub(crate) places: Places<'a>,
    pub(crate) names: bool,
}

impl LineFormat for IntoLines<'_> {
    type Row = IntoRow;

    ghost can_write = { λ _ _. Unit {0} };

    ghost use Rattle.hd_lines.specs.Replies.{into_line};

    ghost line = { λ lines row. into_line lines.places lines.names row };

    fn put(&mut self, text: &mut String, row: &IntoRow) -> Result<(), AllocError> {
        put_into_row(text, row)?;
        if self.names {
            text.push(' ')?;
            put_name_of_id(text, self.places.graph(), row.source)?;
            text.push(' ')?;
            self.places.put_by_id(text, row.source, row.slot)?;
        }
        Ok(())
    }
}

/// Roots as lines: `R KIND ID MODE`, and with names `NAME`.
#[derive(Drop)]
pub(crate) struct RootLines<'a> {
    pub(crate) graph: &'a Graph,
    pub(crate) names: bool,
}

impl LineFormat for RootLines<'_> {
    type Row = RootRow;

    ghost can_write = { λ _ _. Unit {0} };

    ghost use Rattle.hd_lines.specs.Replies.{root_line};

    ghost line = { λ lines row. root_line lines.graph.now lines.names row };

    fn put(&mut self, text: &mut String, row: &RootRow) -> Result<(), AllocError> {
        put_root_row(text, row)?;
        if self.names {
            text.push(' ')?;
            put_name_of_id(text, self.graph, row.id)?;
        }
        Ok(())
    }
}

/// IDs as lines, and with names `NAME`.
#[derive(Drop)]
pub(crate) struct IdLines<'a> {
    pub(crate) graph: &'a Graph,
    pub(crate) names: bool,
}

impl LineFormat for IdLines<'_> {
    type Row = u64;

    ghost can_write = { λ _ _. Unit {0} };

    ghost use Rattle.hd_lines.specs.Replies.{id_line};

    ghost line = { λ lines id. id_line lines.graph.now lines.names id };

    fn put(&mut self, text: &mut String, row: &u64) -> Result<(), AllocError> {
        put_id(text, *row)?;
        if self.names {
            text.push(' ')?;
            put_name_of_id(text, self.graph, *row)?;
        }
        Ok(())
    }
}
