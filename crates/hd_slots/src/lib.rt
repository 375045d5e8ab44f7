//! The references of all objects of a heap dump, a row for each object: first as file offsets of IDs, then as numbers
//! of objects.
//!
//! Callers fill the rows of `UnresolvedSlots`, which are those of a part of the objects, join some of them, and resolve
//! these to a `SlotTable`. They see it as a row of IDs for each object, and the objects that these refer to.
//!
//! While the rows are filled (`unresolved.rt`), each slot has the file offset of its ID, in four bytes. All rows of a
//! part lie in one list, and a second list has where each row starts. All instances of a class have its ID in a slot.
//! That ID is noted once with an offset (`shared.rt`); the other slots keep a mark and the place of that offset, so
//! it is looked up once. Each part may be filled by a thread of its own. `JoinedRows` (`joined_rows.rt`) are 1 to 256
//! parts, over the IDs of all objects; nothing is copied.
//!
//! To resolve them (`resolving.rt`), all parts are gone over side by side, on all processors. In each part:
//!
//! - the shared offsets are turned into what is found there,
//! - each slot of the list is overwritten by what is found for it, with one finder for each 65,536 slots: the number
//!   of an object, a mark for null, or a marked offset where no object has the ID,
//! - one pass moves the absent IDs to a list at the side and gives each a number behind those of the objects.
//!
//! File offsets have at most 31 bits, so offsets, numbers and marks fit into four bytes. No slot needs the file after
//! that.
//!
//! `ResolvedRows` (`resolved_rows.rt`) are one resolved part. A `SlotTable` (`slot_table.rt`) asks the part that has
//! the object, which the `PartIndex` of `hd_parts` finds. A pass that needs only what an object refers to takes its
//! `Targets` (`targets.rt`) once, so that the row isn't looked up for each slot. The rows of a part fill its list from
//! the beginning to the end (`specs/Parts.antt`). So the counts of `stat` are taken over the lists, without a look at
//! rows and without branches (`counting.rt`).
#![tactic(auto)]

mod counting;
mod joined_rows;
mod resolved_rows;
mod resolving;
mod shared;
mod slot_table;
mod targets;
mod unresolved;

pub use counting::IdCounts;
pub use joined_rows::JoinedRows;
pub use slot_table::SlotTable;
pub use targets::Targets;
pub use unresolved::UnresolvedSlots;
