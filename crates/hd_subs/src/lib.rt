//! The sub-records of a heap dump's segments: what each holds, and the file offset of its tag.
//!
//! Callers see lists of `Sub`s: a file offset and an `Item`, which is a root, a class, an instance or an array. They
//! read segments by a `SegmentReader`, which answers the fault of a segment where it has one.
//!
//! Most sub-records of a dump are instances and arrays. So the list `Subs` (`subs.rt`) keeps four bytes for each
//! sub-record, and makes an `Item` only when one is asked for:
//!
//! - Of an instance or an array it keeps the file offset of the tag. The fields are read from the file again
//!   (`packed.rt`). The head of a packed sub-record has up to 25 bytes, so it is kept this way only where 25 bytes
//!   are left in the file.
//! - Any other sub-record is a row of 32 bytes (`row.rt`, `sub_rows.rt`): a root, a class, and what stands at the
//!   very end of the file. The list keeps the number of the row, from 2^31 on.
//! - A class doesn't fit into a row. Its row has an index into a list of `ClassDump`s (`class.rt`), each of which has
//!   lists of its constants, statics and fields.
//!
//! Neither elements nor values are copied. An item has the place in the file of an object array's elements and of an
//! instance's values; a class has that of each constant's and static's value.
//!
//! Reading:
//!
//! - `reader.rt`: the `SegmentReader` goes over the body of a segment and appends to its lists. For an instance or an
//!   array it finds only where it ends. What is read at the offset later is what stands there, by the proof. For each
//!   segment it asks for room at once, so that the list seldom moves as it grows. Where that room is refused, the
//!   list grows as it is filled. At a fault the entries of the segment are taken off the list again.
//! - `reading.rt`: `behind_packed` finds the end of an instance or an array; `read_row` reads any sub-record but a
//!   class.
//! - `class_reading.rt`: reads a CLASS DUMP from left to right. It asks for memory only for items whose bytes it has
//!   found.
//! - `layout.rt`: the tags, and where fields lie behind the tag. `types.rt`: the bytes of an element of each type.
//! - `sub.rt`: `Sub` and `Item`.
//!
//! Over a whole dump:
//!
//! - `dump_subs.rt`: `DumpSubs` is the lists of all workers. They stay apart and are read as one. `classes_end` tells
//!   where the classes end. Classes are rows, so it reads nothing from the file; it goes from the last part to the
//!   first, and skips a part that has no class at its side.
//! - `sub_list.rt`: a thread that goes over all sub-records takes a `SubList` for itself. What it reads then lies in
//!   its own memory, and no two threads share a line of the cache.
#![tactic(auto)]

mod class;
mod class_reading;
mod dump_subs;
mod layout;
mod packed;
mod reader;
mod reading;
mod row;
mod sub;
mod sub_list;
mod sub_rows;
mod subs;
mod types;

pub use class::{ClassDump, Constant, Field, Static};
pub use dump_subs::DumpSubs;
pub use layout::{array_class_offset, class_offset};
pub use reader::SegmentReader;
pub use sub::{Item, Sub};
pub use sub_list::SubList;
pub use subs::Subs;
