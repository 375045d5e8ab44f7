//! Places of slots, as further columns of lines.
ghost use Rattle.std.specs.Prelude.{◌≡◌, ◌<◌, ◌++◌, None, Some, MatchOption, length, string_bytes, OnOk};
ghost use Rattle.std.specs.Option.{option_map};
ghost use Rattle.hd_terms.specs.Dump.{NamedClass, named_class, named_field};
ghost use Rattle.hd_lines.specs.Names.{place_of_field, place_of_slot, slot_place};
ghost use Rattle.hd_names.specs.Fields.{field_view};

use crate::naming::put_place_text;
use hd_graph::Graph;
use hd_names::{FieldName, FieldNames};
use hd_terms::{Group, Slot};
use std::alloc::AllocError;
use std::marker::Model;

/// Finds the places of slots in a graph. It keeps the fields of the class that was asked for last, so that the fields of one object
/// in their order cost one way along the chain of its class.
#[derive(Drop)]
pub(crate) struct Places<'a> {
    graph: &'a Graph,
    last: Option<(u64, FieldNames<'a>)>,
}

impl<'a> Model for Places<'a> {
    ghost use Rattle.hd_terms.specs.Dump.{Dump};
    ghost use Rattle.hd_analyst.specs.PlacesInside.{AreOfLast};

    ghost Value = { Dump };

    ghost view = { λ p. p.graph.now };

    ghost invariant = { λ p. AreOfLast p.graph.now p.last };
}

impl<'a> Places<'a> {
    /// The places in a graph.
    pub(crate) fn new(graph: &'a Graph) -> Places<'a>
        ensures { result ≡ graph.now }
    {
        Places { graph, last: None }
    }

    /// The graph.
    pub(crate) fn graph(&self) -> &'a Graph
        ensures { result.now ≡ self.now }
    {
        self.graph
    }

    /// The fields of the layout of the class of an ID, if they are kept in the graph. Those of the class that was asked for last
    /// are at hand.
    fn fields_of(&mut self, class: u64) -> Option<FieldNames<'a>>
        ensures fields { MatchOption result (named_class self.old class ≡ None) (λ fields. option_map (λ (c : NamedClass). c.fields) (named_class self.old class) ≡ Some fields) }
        ensures same { self.new ≡ self.old }
    {
        if let Some((id, fields)) = self.last.take() {
            if id == class {
                return Some(fields);
            }
        }
        self.graph.named_fields(class)
    }

    /// The field of a number in the layout of the class of an ID, if the class has it and its name is kept.
    fn field(&mut self, class: u64, i: u32) -> Option<FieldName<'a>>
        ensures found { option_map field_view result ≡ named_field self.old class i }
        ensures same { self.new ≡ self.old }
    {
        let mut fields = self.fields_of(class)?;
        let found = fields.get(i);
        self.last = Some((class, fields));
        found
    }

    /// Puts the place of the field of a number of an object of a group behind a text.
    fn put_field(&mut self, text: &mut String, group: Group, i: u32) -> Result<(), AllocError>
        ensures text { OnOk result (string_bytes text.new ≡ string_bytes text.old ++ place_of_field self.old group i) }
        ensures same { self.new ≡ self.old }
    {
        let Group::Class(class) = group else {
            return text.push('-');
        };
        match self.field(class, i) {
            Some(field) => put_place_text(text, self.graph, field.owner, field.name),
            None => text.push('-'),
        }
    }

    /// Puts the place of a slot of the object of a number behind a text.
    pub(crate) fn put(
        &mut self,
        text: &mut String,
        object: u32,
        slot: Slot,
    ) -> Result<(), AllocError>
        requires { object < length self.old.objects }
        ensures text { OnOk result (string_bytes text.new ≡ string_bytes text.old ++ slot_place self.old object slot) }
        ensures same { self.new ≡ self.old }
    {
        let graph = self.graph;
        match slot {
            Slot::Field(i) => self.put_field(text, graph.group_of(object), i),
            Slot::Static(i) => {
                let class = graph.id_of(object);
                put_place_text(text, graph, class, graph.static_name(class, i))
            }
            _ => text.push('-'),
        }
    }

    /// Puts the place of a slot of the object of an ID behind a text, `-` where there is no such object.
    pub(crate) fn put_by_id(
        &mut self,
        text: &mut String,
        id: u64,
        slot: Slot,
    ) -> Result<(), AllocError>
        ensures text { OnOk result (string_bytes text.new ≡ string_bytes text.old ++ place_of_slot self.old id slot) }
        ensures same { self.new ≡ self.old }
    {
        match self.graph.index_of(id) {
            Some(object) => self.put(text, object, slot),
            None => text.push('-'),
        }
    }
}
