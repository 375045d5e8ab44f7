//! The fields of classes, as they are kept: those that a class declares, and a link to the class above it.
ghost use Rattle.std.specs.Prelude.{◌≡◌, ◌-◌, ◌≤◌, drop, slice_get};
ghost use Rattle.std.specs.Option.{option_map};
ghost use Rattle.hd_names.specs.Tables.{AreEarlier, rows_of, layout_in, own_fields_in};
ghost use Rattle.hd_names.specs.Fields.{field_view};

use crate::field_names::FieldName;
use crate::lists::Lists;

/// A class whose chain is whole.
#[derive(Clone, Copy)]
pub struct FieldRow {
    /// The ID of the class.
    pub class: u64,
    /// The number of the row of the next class above it in its chain that declares fields, if one does.
    pub above: Option<u32>,
}

/// The rows of classes, and of each row the fields that the class declares. A row stands behind those above it.
pub struct FieldTable {
    pub rows: Vec<FieldRow>,
    /// The numbers of the names of the fields that the class of each row declares.
    pub fields: Lists<u32>,
    /// The texts that are names, by their numbers. A field without a name has a number behind the last.
    pub texts: Lists<u8>,
}

impl Drop for FieldTable {
    /// Drops the fields. A derived drop would be proved anew at each place that lets go of one.
    fn drop(self) {
        let Self {
            rows,
            fields,
            texts,
        } = self;
    }
}

impl FieldTable {
    /// The row of a number, and the numbers of the names of its fields.
    fn row(&self, number: u32) -> Option<(FieldRow, &[u32])>
        ensures { option_map (λ r. (r.0, r.1.now)) result ≡ slice_get (rows_of self.now) number }
    {
        let row = self.rows.get(number as usize)?;
        let own = self.fields.get(number as usize)?;
        Some((*row, own))
    }

    /// Passes over the rows whose fields all stand before the field of a number, from a row on upwards. Answers the row that has
    /// the field, if there is one, and the field's number among those from that row on.
    pub(crate) fn walk(&self, from: Option<u32>, field: usize) -> (Option<u32>, usize)
        requires { AreEarlier self.now.rows.items }
        ensures rest { result.1 ≤ field }
        ensures passed { drop (field - result.1) (layout_in self.now from) ≡ layout_in self.now result.0 }
        ensures own { slice_get (own_fields_in self.now result.0) result.1 ≡ slice_get (layout_in self.now result.0) result.1 }
    {
        let mut row = from;
        let mut rest = field;
        while let Some(number) = row {
            let Some((link, own)) = self.row(number) else {
                return (None, rest);
            };
            if rest < own.len() {
                return (row, rest);
            }
            rest -= own.len();
            row = link.above;
        }
        (None, rest)
    }

    /// The field of a number among those that the class of a row declares, if there are such.
    pub(crate) fn own_field(&self, row: Option<u32>, field: usize) -> Option<FieldName<'_>>
        ensures { option_map field_view result ≡ slice_get (own_fields_in self.now row) field }
    {
        let (row, own) = self.row(row?)?;
        let name = *own.get(field)?;
        Some(FieldName {
            owner: row.class,
            name: self.texts.get(name as usize),
        })
    }
}
