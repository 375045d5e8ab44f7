//! The log of edits as a value: a lawful list of at most 4,096 events.
//!
//! Callers see a `Front`: a list of events in which each undo takes back an earlier live edit of the same analyst. They
//! ask whether the log takes an event and why not (`next_fault`, `append_refusal`), extend it, and find out which
//! events are live. They also ask whether one log begins with another, and whether it continues what an analyst has
//! seen. No method changes a `Front`: `extend` makes a longer one and leaves the old one as it is.
//!
//! `front.rt` has the type, a shared `Vec` of packed events and beside it a shared flag for each, whether it is live:
//! `share` adds an owner, and `extend` copies both, which are short, and changes at most one flag. So whether an event
//! is live, whether a root has a number and why a log takes no event are each one look at the flags. `events.rt` has the
//! functions over slices of packed events and flags that it is made of. `packed_event.rt` has `PackedEvent`, an event in
//! 16 bytes. Equal events are packed alike, so two are compared by four fields.
#![tactic(auto)]

mod events;
mod front;
mod packed_event;

pub use front::Front;
