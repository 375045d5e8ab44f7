//! Opening a heap dump: from the bytes of a file to its graph, or to its fault.
//!
//! Callers give the bytes, how many workers read them, and how phantom references are followed, and get a `Graph`.
//! `open_named_dump` keeps the names of fields and statics, and `open_dump` doesn't. This crate drives those that read a
//! file, in the order of its phases: records (`hd_records`), sub-records (`hd_decode`), classes (`hd_classes`), objects
//! (`Graph::build` of `hd_graph`). The answer is the first fault of the first phase that has one.
//!
//! Two threads note the first text of each ID while workers read the sub-records. What a phase no longer needs is given up
//! before the next.
#![tactic(auto)]

mod opening;

pub use opening::{open_dump, open_named_dump};
