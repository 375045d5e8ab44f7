//! Lists of what the records of a file say, in file order.
ghost use Rattle.std.specs.Prelude.{◌≡◌, ◌↔◌, ◌<◌, [], length, slice_get, IsTrue, Some};

use hd_terms::{Load, Span, Text};
use std::marker::Model;

/// What the records of one kind say, in file order.
#[derive(Drop)]
pub struct RecordList<T> {
    items: Vec<T>,
}

/// The texts of a file, as its UTF8 records have them.
pub type Texts = RecordList<Text>;

/// The classes that were loaded, as LOAD CLASS records have them.
pub type Loads = RecordList<Load>;

/// Where the bodies of the segments lie in the file.
pub type Segments = RecordList<Span>;

impl<T> Model for RecordList<T> {
    ghost use Rattle.std.specs.Prelude.{List};

    ghost Value = { List T };

    ghost view = { λ l. l.items.items };
}

impl<T> RecordList<T> {
    /// A list of these.
    pub fn from_vec(items: Vec<T>) -> RecordList<T>
        ensures { result ≡ items.items }
    {
        RecordList { items }
    }

    /// Its elements as a plain list.
    pub fn into_vec(self) -> Vec<T>
        ensures { result.items ≡ self }
    {
        self.items
    }

    /// How many elements there are.
    pub fn len(&self) -> usize
        ensures { result ≡ length self.now }
    {
        self.items.len()
    }

    /// Whether there is none.
    pub fn is_empty(&self) -> bool
        ensures { IsTrue result ↔ (self.now ≡ []) }
    {
        self.items.is_empty()
    }

    /// All of them.
    pub fn as_slice(&self) -> &[T]
        ensures { result.now ≡ self.now }
    {
        self.items.as_slice()
    }
}

impl<T: Copy> RecordList<T> {
    /// The element of a number below `len()`, counted from 0.
    pub fn get(&self, i: usize) -> T
        requires { i < length self.now }
        ensures { slice_get self.now i ≡ Some result }
    {
        self.items[i]
    }
}
