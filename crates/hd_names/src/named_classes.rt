//! Looking up the names that go with class objects.
ghost use Rattle.std.specs.Prelude.{◌≡◌, length, slice_get, None, Some, MatchOption};
ghost use Rattle.std.specs.Option.{option_map, option_copied};
ghost use Rattle.hd_terms.specs.Dump.{NamedClass};
ghost use Rattle.hd_names.specs.Named.{class_in, static_in};
ghost use Rattle.hd_names.specs.Tables.{AreEarlier, named_of};

use crate::field_names::FieldNames;
use crate::field_table::FieldTable;
use crate::lists::Lists;
use hd_hashers::IdHasher;
use indexmap::IndexMap;
use std::marker::Model;

/// The class objects of a file in file order, each with the fields of its layout and its statics, by their names.
pub struct NamedClasses {
    /// The number of the first row of its layout that has fields, if there is one, by the ID of each class.
    firsts: IndexMap<u64, Option<u32>, IdHasher>,
    /// The numbers of the names of the statics of each class.
    statics: Lists<u32>,
    table: FieldTable,
}

impl Drop for NamedClasses {
    /// Drops the fields. A derived drop would be proved anew at each place that lets go of one.
    fn drop(self) {
        let Self {
            firsts,
            statics,
            table,
        } = self;
    }
}

impl Model for NamedClasses {
    ghost use Rattle.std.specs.Prelude.{List};
    ghost use Rattle.hd_terms.specs.Dump.{NamedClass};

    ghost Value = { List NamedClass };

    ghost use Rattle.hd_names.specs.NamedInside.{named_in, AreNamed};

    ghost view = { named_in };

    ghost invariant = { AreNamed };
}

impl NamedClasses {
    /// Class objects by the first row of the layout of each, the numbers of the names of its statics, and the table of fields,
    /// which has the texts of both.
    pub fn new(
        firsts: IndexMap<u64, Option<u32>, IdHasher>,
        statics: Lists<u32>,
        table: FieldTable,
    ) -> NamedClasses
        requires statics { length statics ≡ length firsts.entries }
        requires rows { length table.fields ≡ length table.rows.items }
        requires earlier { AreEarlier table.rows.items }
        ensures { result ≡ named_of firsts.entries statics table }
    {
        NamedClasses {
            firsts,
            statics,
            table,
        }
    }

    /// How many class objects there are.
    pub fn len(&self) -> usize
        ensures { result ≡ length self.now }
    {
        self.firsts.len()
    }

    /// The ID of the class object at a place in file order, if there is one.
    pub fn id_at(&self, place: usize) -> Option<u64>
        ensures { result ≡ option_map (λ (c : NamedClass). c.class) (slice_get self.now place) }
    {
        match self.firsts.get_index(place) {
            Some((id, _)) => Some(*id),
            None => None,
        }
    }

    /// The fields of the layout of the class of an ID, if there is such a class object: none where its chain isn't whole.
    pub fn fields(&self, class: u64) -> Option<FieldNames<'_>>
        ensures { MatchOption result (class_in self.now class ≡ None) (λ fields. option_map (λ (c : NamedClass). c.fields) (class_in self.now class) ≡ Some fields) }
    {
        match self.firsts.get(&class) {
            Some(first) => Some(FieldNames::new(&self.table, *first)),
            None => None,
        }
    }

    /// The name of the static of a number of the class of an ID, if it has the static and that has a name: its bytes as the file
    /// has them.
    pub fn static_name(&self, class: u64, number: u32) -> Option<&[u8]>
        ensures { option_copied result ≡ static_in self.now class number }
    {
        let (place, _, _) = self.firsts.get_full(&class)?;
        let statics = self.statics.get(place)?;
        let name = *statics.get(number as usize)?;
        self.table.texts.get(name as usize)
    }
}
