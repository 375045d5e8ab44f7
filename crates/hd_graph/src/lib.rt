//! The graph of a dump: its objects by number, their slots, and its roots.
//!
//! Callers see a `Graph`, which contracts see as the `Dump`. A graph never changes, and it needs no byte of the file.
//! Here the definitions of files meet those of the heap: most crates that stand on this one speak of the dump alone.
//!
//! `hd_opening` reads the records, the sub-records and the classes of a file. `Graph::build` (`building.rt`) makes the
//! graph of these, or finds the first fault of the objects:
//!
//! - It copies the names of classes, and gives up the records and texts.
//! - It makes the numbers, rows and shapes of the objects, and gives up the list of the sub-records.
//! - It has `hd_slots` turn the file offsets in the rows into numbers.
//!
//! The names of fields and statics aren't in that graph. `Graph::with_classes` adds them where they are to be kept.
//!
//! Numbers, rows and shapes are made in one pass, by as many threads as there are workers, each of which takes a part
//! of the sub-records (`sharing.rt`, `stretch.rt`). For each sub-record a thread does two things:
//!
//! - `number.rt` numbers the object by its ID, or keeps the root. It counts repeated IDs and opaque instances, and
//!   finds the faults NullObject and InstanceSize.
//! - `filling.rt` adds the row and the shape of the object. The row has the file offset of each ID: `array_rows.rt`
//!   for arrays, `instance_rows.rt` for instances, `class_rows.rt` for classes. The shape is made by
//!   `instance_shapes.rt` and `class_shapes.rt`, and `layouts.rt` makes what all instances of a class share.
//!
//! The IDs of all parts are put together (`numbering.rt`); rows and shapes stay in their parts. Two cases need a further
//! pass, for the first sub-record of each ID counts alone:
//!
//! - An ID is in two parts, or a part other than the first has a fault. That fault may lie at a repeated ID, where an
//!   instance of the wrong size is no fault. One thread numbers all objects (`number_alone`), and rows and shapes are
//!   made again. A fault of the first part is the answer as it is.
//! - The shapes are more than the IDs, so an ID is repeated within a part. Rows and shapes are made again, of the first
//!   object of each ID (`rows_of`).
//!
//! An opaque instance, whose class isn't known, has a row like that of an array without elements, and is kept as one.
//!
//! - `graph.rt`: the `Graph` is the slot table, the shapes, the roots, the names of classes, a few counts, and the
//!   names of fields and statics if they are kept. It answers the ID of an object, its group, its bytes, its slots, and
//!   the roots. The name of an array's slot follows from its index; other names are those of the shape.
//! - `counts.rt`: the counts of `stat`.
//! - `kinds.rt`: `KindLists` has a list for each kind of reference objects, of all references that go through their
//!   referents to objects, eight bytes each. Only edits need them, so a graph has none; they are made when they are
//!   asked for, by four threads.
#![tactic(auto)]

mod array_rows;
mod building;
mod class_rows;
mod class_shapes;
mod counts;
mod filling;
mod graph;
mod instance_rows;
mod instance_shapes;
mod kinds;
mod layouts;
mod number;
mod numbering;
mod sharing;
mod stretch;

pub use graph::{Graph, RootRead, SlotName, SlotRead};
pub use kinds::KindLists;
