//! Groups as lines.
ghost use Rattle.std.specs.Prelude.{◌≡◌, ◌++◌, string_bytes, OnOk};
ghost use Rattle.hd_lines.specs.Names.{group_name};

use hd_graph::Graph;
use hd_terms::{ClassRow, Group};
use hd_words::{LineFormat, array_text, put_decimal, put_group, put_name};
use std::alloc::AllocError;

/// Groups as lines: `G COUNT BYTES NAME`. The names of classes are those of a graph.
#[derive(Drop)]
pub(crate) struct ClassLines<'a> {
    pub(crate) graph: &'a Graph,
}

impl LineFormat for ClassLines<'_> {
    type Row = ClassRow;

    ghost can_write = { λ _ _. Unit {0} };

    ghost use Rattle.hd_lines.specs.Replies.{class_line};

    ghost line = { λ lines row. class_line lines.graph.now row };

    fn put(&mut self, text: &mut String, row: &ClassRow) -> Result<(), AllocError> {
        put_group(text, row.group)?;
        text.push(' ')?;
        put_decimal(text, row.count)?;
        text.push(' ')?;
        put_decimal(text, row.bytes)?;
        text.push(' ')?;
        put_group_name(text, self.graph, row.group)
    }
}

/// Puts the name of a group behind a text.
pub(crate) fn put_group_name(
    text: &mut String,
    graph: &Graph,
    group: Group,
) -> Result<(), AllocError>
    ensures { OnOk result (string_bytes text.new ≡ string_bytes text.old ++ group_name graph.now group) }
{
    match group {
        Group::Class(id) => put_name(text, graph.name_of(id)),
        Group::Prim(element) => text.push_str(array_text(element)),
        Group::Classes => text.push_str("classes"),
    }
}
