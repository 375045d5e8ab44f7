//! The header and the records of a heap dump: the size of identifiers, the texts, the loaded classes, and where the
//! bodies of the segments lie.
//!
//! Callers see `Records`, or the read fault with its file offset. `check_size` needs no byte of the file, so it is
//! asked before memory is taken for one.
//!
//! A record is a tag, a time, a length and a body of that length. `records.rt` walks over the records from first to
//! last. It notes UTF8, LOAD CLASS, HEAP DUMP and HEAP DUMP SEGMENT, each kind in a `RecordList` (`record_list.rt`)
//! in file order, and passes over every other record by its length. A text and a segment are kept as a place and a
//! length in the file; no byte is copied, and bodies of segments aren't looked into. `header.rt` checks the text at
//! the front and the size of identifiers.
#![tactic(auto)]

mod header;
mod record_list;
mod records;

pub use header::check_size;
pub use record_list::{Loads, RecordList, Segments, Texts};
pub use records::{Records, read_records};
