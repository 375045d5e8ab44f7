//! The fields of one layout, by their names.
ghost use Rattle.std.specs.Prelude.{◌≡◌, slice_get};
ghost use Rattle.std.specs.Option.{option_map};
ghost use Rattle.hd_names.specs.Fields.{field_view};
ghost use Rattle.hd_names.specs.Tables.{AreEarlier, layout_in};

use crate::field_table::FieldTable;
use std::marker::Model;

/// A field of a layout, by its name.
#[derive(Clone, Copy)]
pub struct FieldName<'a> {
    /// The ID of the class that declares it.
    pub owner: u64,
    /// The bytes of its name as the file has them, if it has one.
    pub name: Option<&'a [u8]>,
}

/// The fields of the layout of a class. One that is asked for after one of a lower number is found from there on, so that
/// fields in ascending order cost one way along the chain.
#[derive(Drop)]
pub struct FieldNames<'a> {
    table: &'a FieldTable,
    /// The number of the first row of the layout.
    first: Option<u32>,
    /// Where it stands: a row of the layout, or behind the last.
    row: Option<u32>,
    /// How many fields the rows before have.
    passed: usize,
}

impl<'a> Model for FieldNames<'a> {
    ghost use Rattle.std.specs.Prelude.{List};
    ghost use Rattle.hd_terms.specs.Dump.{NamedField};

    ghost Value = { List NamedField };

    ghost use Rattle.hd_names.specs.FieldsInside.{fields_in, StandsThere};

    ghost view = { fields_in };

    ghost invariant = { StandsThere };
}

impl<'a> FieldNames<'a> {
    /// The fields of the layout that begins with a row; none where there is no row.
    pub(crate) fn new(table: &'a FieldTable, first: Option<u32>) -> FieldNames<'a>
        requires { AreEarlier table.now.rows.items }
        ensures { result ≡ layout_in table.now first }
    {
        FieldNames {
            table,
            first,
            row: first,
            passed: 0,
        }
    }

    /// The field of a number, if the layout has it. The answer doesn't depend on what was asked before.
    pub fn get(&mut self, field: u32) -> Option<FieldName<'a>>
        ensures found { option_map field_view result ≡ slice_get self.old field }
        ensures same { self.new ≡ self.old }
    {
        let field = field as usize;
        if field < self.passed {
            self.row = self.first;
            self.passed = 0;
        }
        let (row, rest) = self.table.walk(self.row, field - self.passed);
        self.row = row;
        self.passed = field - rest;
        self.table.own_field(row, rest)
    }
}
