//! What a graph shows under a log, and why a dump refuses an edit. Each file is one query.
//!
//! - `rows.rt`: the slots of an object. `roots.rt`: all roots.
//! - `into.rt`: the references to an object, by its reverse rows.
//! - `chain.rt`: a root path of an object, which follows the supports back to the root. It shows no object twice.
//! - `listing.rt`: the IDs of the objects of a group and strength (`members`), and of those that became unreachable
//!   since a mark (`fell`), all or the first ones. It goes over pages of 1,024 objects: for `members` over those that may
//!   have objects of the group, for `fell` over those that changed since the mark where the log begins with the mark's.
//! - `gathered.rt`: the IDs that a list gathers: all, or the least ones (`least_ids.rt`), in a set that never has more than
//!   are wanted.
//! - `compared.rt`: two logs over one graph, and the pages that didn't change between them.
//! - `moved.rt`: how many objects have one strength at a mark and another one now, for each pair of strengths.
//! - `freed.rt`: how much became unreachable since a mark, and of which groups.
//! - `groups.rt`: the groups that can be looked for by their names (`find`).
//! - `refusing.rt`: why the dump refuses an edit. Whether a root can be dropped is for the log to say.
//! - `totals.rt`: the totals of `stat`. It computes the strengths alone, and counts the objects in up to sixteen shares
//!   side by side.
//! - `solved.rt`: the graph, the log and the supports that a query reads.
#![tactic(auto)]

mod chain;
mod compared;
mod freed;
mod gathered;
mod groups;
mod into;
mod least_ids;
mod listing;
mod moved;
mod refusing;
mod roots;
mod rows;
mod solved;
mod totals;

pub use chain::{Chain, Link, chain_of};
pub use freed::{Freed, freed_rows};
pub use groups::named_groups;
pub use into::into_rows;
pub use listing::{Members, fallen_ids, member_ids};
pub use moved::moved_rows;
pub use refusing::edit_refusal;
pub use roots::root_rows;
pub use rows::rows_of;
pub use solved::Solved;
pub use totals::opening_totals;
