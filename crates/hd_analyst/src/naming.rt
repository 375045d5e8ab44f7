//! Names of objects, and of what classes declare, as further columns of lines.
ghost use Rattle.std.specs.Prelude.{◌≡◌, ◌<◌, ◌++◌, length, string_bytes, OnOk};
ghost use Rattle.std.specs.Option.{option_copied};
ghost use Rattle.hd_lines.specs.Names.{name_at, name_of_id, place_text};

use hd_graph::Graph;
use hd_terms::Group;
use hd_words::{array_text, put_name};
use std::alloc::AllocError;

/// Puts the name of the object of a number behind a text.
pub(crate) fn put_object_name(
    text: &mut String,
    graph: &Graph,
    object: u32,
) -> Result<(), AllocError>
    requires { object < length graph.now.objects }
    ensures { OnOk result (string_bytes text.new ≡ string_bytes text.old ++ name_at graph.now object) }
{
    match graph.group_of(object) {
        Group::Class(class) => put_name(text, graph.name_of(class)),
        Group::Prim(element) => text.push_str(array_text(element)),
        Group::Classes => {
            put_name(text, graph.name_of(graph.id_of(object)))?;
            text.push_str(".class")
        }
    }
}

/// Puts the name of the object of an ID behind a text, `-` where there is none.
pub(crate) fn put_name_of_id(text: &mut String, graph: &Graph, id: u64) -> Result<(), AllocError>
    ensures { OnOk result (string_bytes text.new ≡ string_bytes text.old ++ name_of_id graph.now id) }
{
    match graph.index_of(id) {
        Some(object) => put_object_name(text, graph, object),
        None => text.push('-'),
    }
}

/// Puts `CLASS.FIELD` behind a text: the name of a class, and a name that it declares.
pub(crate) fn put_place_text(
    text: &mut String,
    graph: &Graph,
    class: u64,
    name: Option<&[u8]>,
) -> Result<(), AllocError>
    ensures { OnOk result (string_bytes text.new ≡ string_bytes text.old ++ place_text graph.now class (option_copied name.entry)) }
{
    put_name(text, graph.name_of(class))?;
    text.push('.')?;
    put_name(text, name)
}
