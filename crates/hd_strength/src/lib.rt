//! The search for the strengths, supports and stamps of all objects of a graph under a log.
//!
//! Callers see three functions (`scratch.rt`). `from_removed` and `from_scratch` give settled supports, in pages or in
//! a flat list; `strengths_alone` gives only the strengths, for `stat`. `Removed` (`removed.rt`) is what the live edits
//! of a log take away: slots and roots one by one (`multiset.rt`), and the kinds whose references are all cleared
//! (`cleared.rt`). It has each as often as live edits take it away, so `with` and `without` move it by one edit.
//! `edited.rt` has what stands, slot by slot and root by root.
//!
//! **The algorithm** is Dijkstra's for the widest path: a path is as wide as the least strength on it. There are few
//! strengths, so offers wait in one bucket for each instead of a heap (`buckets.rt`). `begin` (`roots.rt`) makes the
//! objects of standing roots Strong. Then `spread` (`rounds.rt`) takes one strength after another, the greatest first.
//! For each it accepts the offers of that strength, and lets the reached objects pass it on until none waits. A
//! reference gives the lesser of its source's strength and its own kind.
//!
//! **Parts.** The objects are cut by their numbers into at most four parts (`part.rt`). Each has its own findings,
//! queue and buckets, and one thread at a time works on it, so no two threads write the same memory. Where all is kept,
//! a part ends at a multiple of `GROUP` (262,144 objects), so its pages are appended without a copy; where strengths
//! alone are asked for, it has at least 65,536 objects.
//!
//! **Rounds.** In a round (`relaxing.rt`) each part passes on the strength of objects that it has queued. For each
//! standing reference whose target isn't known to be reached:
//!
//! - If it gives the strength being spread to an object of the part, the object is reached at once and queued.
//! - If it gives that strength to an object of another part, it is offered, and the part remembers the object. It
//!   remembers at most 32,768 objects, so such an object is mostly offered once.
//! - If it gives less, it is offered in the bucket of what it gives.
//!
//! Between rounds one thread accepts the offers of the strength being spread, and the part that has the target queues
//! it.
//!
//! `round_size` picks the number of threads. It is one where objects of one part alone wait, or where fewer than 4,096
//! wait and fewer passed their strength on in the last round; so a list that goes to and fro between two parts costs no
//! thread for each object.
//!
//! **Order.** `Queue` (`queue.rt`) says which object is next. Where all is kept, the search is breadth first within a
//! strength and a round takes the objects that wait as it begins; so chains are short right after the opening, though
//! no contract promises it. Where strengths alone are asked for, it is depth first, since what an object refers to
//! mostly lies near it in memory. A round of a part then ends after 4,096 objects with one thread, and with several
//! after 8,192 where some part has none that waits, else after 32,768.
//!
//! **Memory.** `Found` (`found.rt`) has a byte for the strength of each object, so most of them stay in the cache, and
//! 16 bytes for all that is kept of it, unless strengths alone are asked for. Rows and targets are read in no order of
//! memory. So a search that is breadth first looks ahead (`ahead.rt`): for each batch of 32 objects it reads their
//! rows, and then their first targets, together, and the processor waits for all of them at once.
//!
//! **Stamps.** Each part counts its own. An object reached by an offer gets a stamp behind the last one of the part
//! that made the offer and of the part that has the object, so stamps rise along each chain.
//!
//! **Proof.** The supports are the certificate of a search: each is checked by looking at one edge (`Settled` of
//! `hd_terms`; `hd_settled` is that check). The invariant (`IsSearching` of `specs/Parts.antt`) speaks of one list of
//! all that is kept of all objects; each part has what is seen of its own, all of it or the strengths (`seen`). What a
//! part does in a round is stated for any other parts beside it (`GoesOn`): the search goes on when the part takes its
//! own place with what it has done. So a round needs no lemma on how threads interleave.
#![tactic(auto)]

mod ahead;
mod buckets;
mod cleared;
mod edited;
mod found;
mod multiset;
mod part;
mod queue;
mod relaxing;
mod removed;
mod roots;
mod rounds;
mod scratch;

pub use edited::{Edited, StandingRead, held_object, root_target, standing_read};
pub use removed::{Removed, edited_slot, live_edit};
pub use scratch::{from_removed, from_scratch, strengths_alone};
