//! Which part has an object, where the objects of each part are numbered behind those of the part before.
//!
//! Several threads read a part of a dump each. What they make stays apart, in a list of parts, and a `PartIndex`
//! (`part_index.rt`) says for the number of an object which part has it, and where that part begins.
//!
//! A part is asked for at each reference of a dump, so it is found with no search. Of each 65,536 numbers a byte leads to
//! the part that has the first of them. From there on it is mostly no step, and seldom more than one.
#![tactic(auto)]

mod part_index;

pub use part_index::PartIndex;
