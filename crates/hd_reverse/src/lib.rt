//! Where the objects of a graph are referred to: the edges into each object, the dump's roots on it, and the references
//! through referents.
//!
//! Callers see `ReverseRows`: of each object its referrers (the source and the index of its slot) in file order, and
//! the numbers of the dump's roots on it. They also get the references through referents by kind (`KindLists` of
//! `hd_graph`).
//!
//! - `passes.rt` makes the referrers by a counting sort in two passes over all slots: the first counts the references
//!   to each object, the second writes each at its place. They stand in one flat list with the start of each object's
//!   row: 8 bytes a reference and 4 an object.
//! - `numbers.rt` has `NumbersByObject`, numbers sorted by the object that they belong to, for the roots. `hd_view`
//!   uses it for added roots too.
//! - `reverse.rt` puts both together, and makes `KindLists` with threads of its own.
//! - `referrer.rt` has the type of a referrer.
//!
//! A graph has no reverse rows. They are made with the first state, so `stat`, which opens none, doesn't pay for them.
#![tactic(auto)]

mod numbers;
mod passes;
mod referrer;
mod reverse;

pub use numbers::{NumberOn, NumbersByObject};
pub use referrer::Referrer;
pub use reverse::ReverseRows;
