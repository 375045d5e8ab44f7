//! A graph as a log leaves it: which edges and roots stand, and what stands under one log and not under another.
//!
//! Callers make a `View`, which is the trait `Edges` of `hd_edges` over a graph, its reverse rows, what a log takes
//! away and the roots that it adds. A repair reads the graph through it. `lost_by_edit` gives the edges and roots that
//! stand under one log and not under another, where the two differ by one live edit; a state calls it to find what an
//! event takes away or gives. A view owns nothing: it borrows all of these, and takes no memory.
//!
//! - `view.rt`: `View`. The edges from an object are its slots that refer to objects, the edges to it are its referrers
//!   in the reverse rows, and the roots on it are the dump's, followed by those that events add. The view counts looks.
//! - `finding.rt`: which slot is the edge of an index. Slots that are null or have absent IDs are no edges, so indexes
//!   of edges and slots differ. The view keeps a cursor, the object and slot where the last edge was found, and goes on
//!   from there; without it, reading the edges of an object in turn would go over its slots from the first one each
//!   time.
//! - `edited.rt`: whether one edge or one root stands. `Edited` is a graph, a log and what the log takes away.
//! - `added.rt`: the roots that the events of a log add, by object. Live or not, they have the numbers of their events,
//!   counted on from the dump's roots. One more event adds one root at most, and else shares them (`with_last`).
//! - `lost.rt`: `lost_by_edit`, for what stands under the log `more` and not under the log `less`. It goes over neither
//!   the graph nor the logs. Two logs that follow one another differ by one live edit, and what is lost is all by it: the
//!   edge of the one slot that it cuts or clears, the references of the kind that it clears (by the lists of
//!   `hd_reverse`), or the one root that it drops or adds. Of these it keeps what stands under `more` and not under
//!   `less`.
#![tactic(auto)]

mod added;
mod edited;
mod finding;
mod lost;
mod view;

pub use added::AddedRoots;
pub use edited::{Edited, edge_stands, root_stands};
pub use lost::{EdgeLists, is_of_class, lost_by_edit};
pub use view::View;
