//! One sub-record as callers read it: a root, a class, an instance or an array.
ghost use Rattle.std.specs.Prelude.{◌≡◌, is_some};
ghost use Rattle.hd_terms.specs.Classes.{class_of_item};
ghost use Rattle.hd_subs.specs.Views.{item_view};

use crate::class::ClassDump;
use hd_terms::{RootKind, Span};

/// What a sub-record holds.
#[derive(Clone, Copy)]
pub enum Item<'a> {
    /// A root of that kind, and the ID that it holds.
    Root(RootKind, u64),
    /// A class object.
    Class(&'a ClassDump),
    /// An instance: its ID, the ID of its class, and where in the file the values of its fields lie.
    Instance { id: u64, class: u64, values: Span },
    /// An object array: its ID, the ID of its class, and where in the file the IDs of its elements lie.
    ObjArray { id: u64, class: u64, elements: Span },
    /// A primitive array: its ID, the type of its elements as HPROF numbers the basic types (4 to 11), and how many
    /// it has.
    PrimArray { id: u64, element: u8, count: u32 },
}

/// A sub-record, and the file offset of its tag in bytes.
#[derive(Clone, Copy)]
pub struct Sub<'a> {
    pub offset: u64,
    pub item: Item<'a>,
}

impl Item<'_> {
    /// Whether it is a class object.
    pub(crate) fn is_class(self) -> bool
        ensures { result ≡ is_some (class_of_item (item_view self.entry)) }
    {
        match self {
            Item::Class(_) => true,
            _ => false,
        }
    }
}
