//! Sub-records as rows of 32 bytes.
ghost use Rattle.std.specs.Prelude.{◌≡◌, ◌+◌, ◌^◌, ◌<◌, [], ◌∷◌, ◌++◌, length, slice_get, Some, IsTrue, OnOk, OnErr};
ghost use Rattle.std.specs.List.{filter_map};
ghost use Rattle.hd_terms.specs.SubRecords.{Class, Instance, ObjArray};
ghost use Rattle.hd_subs.specs.Views.{item_view, sub_view, class_view};
ghost use Rattle.hd_subs.specs.Rows.{row_view, IsRowOver};
ghost use Rattle.hd_subs.specs.ClassSubs.{class_of_sub};

use crate::class::ClassDump;
use crate::layout::elements_offset;
use crate::row::{Kind, Row};
use crate::sub::{Item, Sub};
use hd_terms::{IdSize, Span};
use std::alloc::{AllocError, Global};
use std::marker::Model;

/// Sub-records as rows, in the order in which they were added.
pub(crate) struct SubRows {
    rows: Vec<Row>,
    classes: Vec<ClassDump>,
}

impl Drop for SubRows {
    /// Drops the fields. A derived drop would be proved anew at each place that lets go of one.
    fn drop(self) {
        let Self { rows, classes } = self;
    }
}

impl Model for SubRows {
    ghost use Rattle.std.specs.Prelude.{List, map};
    ghost use Rattle.hd_terms.specs.SubRecords.{Sub};

    ghost Value = { List Sub };

    ghost use Rattle.std.specs.Prelude.{length, All};
    ghost use Rattle.hd_subs.specs.Rows.{row_view, IsRowOver};

    ghost view = { λ s. map (row_view s.classes.items) s.rows.items };

    ghost invariant = { λ s. All (IsRowOver (length s.classes.items)) s.rows.items };
}

/// The instance of a row, whose values lie at this file offset.
fn instance_of(row: Row, start: u64) -> Item<'static>
    ensures { item_view result ≡ Instance row.id row.class (record { start = start; len = row.count }) }
{
    Item::Instance {
        id: row.id,
        class: row.class,
        values: Span {
            start,
            len: u64::from(row.count),
        },
    }
}

/// The object array of a row, whose IDs lie from the file offset `start` on and have `len` bytes.
fn array_of(row: Row, start: u64, len: u64) -> Item<'static>
    ensures { item_view result ≡ ObjArray row.id row.class (record { start = start; len = len }) }
{
    Item::ObjArray {
        id: row.id,
        class: row.class,
        elements: Span { start, len },
    }
}

/// What a row says, over the classes of its list.
fn sub_of(row: Row, classes: &[ClassDump]) -> Sub<'_>
    requires { IsRowOver (length classes.now) row }
    ensures { sub_view result ≡ row_view classes.now row }
{
    let item = match row.kind {
        Kind::Root(kind) => Item::Root(kind, row.id),
        Kind::Class => Item::Class(&classes[row.class as usize]),
        Kind::InstanceOfFour => instance_of(row, elements_offset(IdSize::Four, row.offset)),
        Kind::InstanceOfEight => instance_of(row, elements_offset(IdSize::Eight, row.offset)),
        Kind::ArrayOfFour => {
            let start = elements_offset(IdSize::Four, row.offset);
            array_of(row, start, 4 * u64::from(row.count))
        }
        Kind::ArrayOfEight => {
            let start = elements_offset(IdSize::Eight, row.offset);
            array_of(row, start, 8 * u64::from(row.count))
        }
        Kind::PrimArray(element) => Item::PrimArray {
            id: row.id,
            element,
            count: row.count,
        },
    };
    Sub {
        offset: row.offset,
        item,
    }
}

impl SubRows {
    /// No sub-records yet.
    pub(crate) fn new(alloc: Global) -> SubRows
        ensures { result ≡ [] }
    {
        SubRows {
            rows: Vec::new(alloc),
            classes: Vec::new(alloc),
        }
    }

    /// How many there are.
    pub(crate) fn len(&self) -> usize
        ensures { result ≡ length self.now }
    {
        self.rows.len()
    }

    /// Whether there is no class to which a row could lead; then none of the rows is a class.
    pub(crate) fn lacks_classes(&self) -> bool
        ensures { IsTrue result → filter_map class_of_sub self.now ≡ [] }
    {
        self.classes.is_empty()
    }

    /// One of them; they are numbered from 0.
    #[inline(always)]
    pub(crate) fn get(&self, i: usize) -> Sub<'_>
        requires { i < length self.now }
        ensures { slice_get self.now i ≡ Some (sub_view result) }
    {
        sub_of(self.rows[i], self.classes.as_slice())
    }

    /// One more at the end, which is no class.
    pub(crate) fn push(&mut self, row: Row) -> Result<(), AllocError>
        requires { IsRowOver 0 row }
        ensures ok { OnOk result (self.new ≡ self.old ++ row_view [] row ∷ []) }
        ensures err { OnErr result (self.new ≡ self.old) }
    {
        self.rows.push(row)?;
        Ok(())
    }

    /// A class at the end, whose tag lies at this file offset.
    pub(crate) fn push_class(&mut self, offset: u64, class: ClassDump) -> Result<(), AllocError>
        requires { offset + 25 < 2 ^ 64 }
        ensures ok { OnOk result (self.new ≡ self.old ++ (record { offset = offset; item = Class (class_view class) }) ∷ []) }
        ensures err { OnErr result (self.new ≡ self.old) }
    {
        let row = Row {
            id: class.id,
            class: self.classes.len() as u64,
            offset,
            count: 0,
            kind: Kind::Class,
        };
        self.rows.reserve(1)?;
        self.classes.push(class)?;
        self.rows.push_reserved(row);
        Ok(())
    }
}
