//! What is kept of each object beside its references: its kind, its recorded bytes and the names of its slots.
//!
//! Callers add the shapes of objects in the order of their numbers to `Shapes` (`shape.rt`), and read a `Shape` by
//! number.
//!
//! - `packed_shapes.rt`: a code of four bytes for each object. The code of an instance is the index of its layout.
//!   The code of an array has its recorded bytes, and of a primitive array also the type of its elements. A class has
//!   no code of its own, nor has an object array of 2^30 bytes or more, or a primitive array of 2^26 bytes or more.
//!   Its code says where in a further list it stands as a `PackedShape` (`packed_shape.rt`).
//! - `shape.rt`: a list of classes, with the recorded bytes and the slot names of each, and a list of layouts. A
//!   layout has what all instances of a class share: recorded bytes, slot names, referent and its kind. It is made
//!   with the first instance of the class. That instance has the bytes of all its fields in the file, so a layout
//!   takes memory in proportion to bytes that are there, and a class without instances takes none for it.
//! - `joined_shapes.rt`: the shapes of several parts, which threads make. The parts stay apart and are read as one.
//! - `shape_list.rt`: a pass over the objects takes a `ShapeList`, which keeps the part of the last object at hand.
#![tactic(auto)]

mod joined_shapes;
mod packed_shape;
mod packed_shapes;
mod shape;
mod shape_list;

pub use joined_shapes::JoinedShapes;
pub use shape::{ClassShape, LayoutShape, Shape, Shapes};
pub use shape_list::ShapeList;
