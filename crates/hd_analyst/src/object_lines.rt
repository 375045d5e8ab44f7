//! Objects as lines.
ghost use Rattle.std.specs.Prelude.{◌≡◌, ◌++◌, string_bytes, OnOk};

use crate::naming::put_object_name;
use hd_graph::Graph;
use hd_terms::Strength;
use hd_words::{LineFormat, put_decimal, put_group, strength_text};
use std::alloc::AllocError;
use std::fmt::Write;

/// An object, by its number, and its strength.
#[derive(Clone, Copy)]
pub(crate) struct ObjectRow {
    pub(crate) object: u32,
    pub(crate) strength: Strength,
}

/// Objects as lines: `G BYTES STRENGTH NAME`. Groups, bytes and names are those of a graph.
#[derive(Drop)]
pub(crate) struct ObjectLines<'a> {
    pub(crate) graph: &'a Graph,
}

impl LineFormat for ObjectLines<'_> {
    type Row = ObjectRow;

    ghost use Rattle.std.specs.Prelude.{◌<◌, length};

    ghost can_write = { λ lines row. row.object < length lines.graph.now.objects };

    ghost use Rattle.hd_lines.specs.Replies.{object_line};

    ghost line = { λ lines row. object_line lines.graph.now row.object row.strength };

    fn put(&mut self, text: &mut String, row: &ObjectRow) -> Result<(), AllocError> {
        let object = row.object;
        put_group(text, self.graph.group_of(object))?;
        let strength = strength_text(row.strength);
        text.push(' ')?;
        put_decimal(text, self.graph.bytes_of(object))?;
        write!(text, " {strength} ")?;
        put_object_name(text, self.graph, object)
    }
}
