//! What one log makes of a dump: a graph that never changes, a log, and the strengths that the two give.
//!
//! Callers see a `State`: the dump, the log, and what is kept of each object. A state never changes. `step` makes the
//! state after one more event, and the old one stays, so an edit that runs out of memory leaves it whole. Which chain
//! is shown goes by the supports that are kept; the other answers to queries go by the dump, the log and the log of a
//! mark.
//!
//! `State` (`state.rt`) holds its parts by `Arc`: the graph, its reverse rows, what the log's live edits take away
//! (`Removed`), the roots that events add, the supports, the pages' last changes (`LastChanges`), and the totals of
//! groups; and the log itself. All states of a dump share the first two. Supports, last changes and totals are in
//! pages, and a new version copies only the pages that it changes. `share` and `mark` copy none of them.
//!
//! How a state comes to be:
//!
//! 1. `open` makes the state of the empty log. The supports come from a search (`hd_strength`), the totals and last
//!    changes from these. The reverse rows (`hd_reverse`) are made by another thread beside that, since neither needs
//!    the other (`parts.rt`).
//! 2. `step` extends the log; `follow` takes a log that has one more event. What the log takes away and the roots that it
//!    adds (`LogParts`) are moved by that event, from what the log before it takes away and adds.
//! 3. `repaired` (`repairing.rt`) shares the supports and finds what the event took away or what it gave, from the one
//!    edit that it does or takes back (`lost_by_edit` of `hd_view`). An event takes away or gives, never both: what is
//!    taken away goes to `lose` of `hd_repair`, and what is given to `gain`. Where the region of a loss is large, `lose`
//!    ends with its marks, and a search afresh, by several threads, finds what `renew` puts there.
//! 4. The changes that the repair returns move the totals, mark their pages as changed, and tell how many objects
//!    became unreachable and how many came back (`Done`). Where very many changed, totals are counted afresh.
//!
//! A state also keeps how many edges the objects have at least whose strength its last event changed, where these are many
//! (`LastMove.antt`). An undo of that event changes the same objects back, so it may search as well.
//!
//! So a step costs by what its event affects, and a loss never by much more than a search. By the size of the dump it only adds
//! an owner to each group of pages, and by the length of the log it copies 17 bytes an event and 8 bytes a live edit.
//!
//! Queries are those of `hd_queries`; the methods of `State` hand them its parts. `view` gives the edges as a repair
//! sees them, for measurements and tests.
//!
//! A `Mark` (`mark.rt`) is a log, the strengths under it and the graph, owned together with the state that it is of.
//! `fell`, `freed` and `moved` compare a state with it.
//!
//! `parts.rt` has `LogParts` and `KeptParts`, the steps of `open` and `step` as functions of their own. One function
//! with all of them would be slow to prove.
#![tactic(auto)]

mod mark;
mod parts;
mod repairing;
mod state;

pub use mark::Mark;
pub use repairing::{Indexes, Repair, repaired};
pub use state::{Done, State};
