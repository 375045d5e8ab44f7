//! The names of the fields and statics of a dump's classes, for those who show slots by name.
//!
//! Callers see `NamedClasses` as the list of the class objects of a file, each with the fields of its layout and with its
//! statics, by their names. `hd_classes` makes them.
//!
//! - `named_classes.rt`: the look-ups, by the ID of a class.
//! - `field_names.rt`: `FieldNames` are the fields of one layout. Who asks for them in ascending order goes along the chain
//!   once.
//! - `field_table.rt`: how the fields are kept. Nothing is copied down a chain: each class has a row with the fields that it
//!   declares itself, and the number of the next row above it that has fields.
//! - `lists.rt`: `Lists` are many short lists in one. They hold the texts of names, each once, and for the fields and the
//!   statics of each class the numbers of their names.
#![tactic(auto)]

mod field_names;
mod field_table;
mod lists;
mod named_classes;

pub use field_names::{FieldName, FieldNames};
pub use field_table::{FieldRow, FieldTable};
pub use lists::Lists;
pub use named_classes::NamedClasses;
