//! Several analysts' desks over one dump: each keeps a state of its own, and all append to one log behind one lock.
//!
//! Callers see a board: the number of the dump's roots, the log from which it began, and the numbers of its desks. They
//! see a desk: its analyst, the dump, what it has seen of the board's log, and the log of its state. They edit, undo
//! and refresh through the desk. The dump's graph and the first state are shared by all desks, so a further desk costs
//! little. A desk is used by one thread; the board is shared.
//!
//! The lock holds the log and nothing else, and is held for one append or one look. While a state is stepped or a query
//! runs it is free, so a slow analyst holds nobody else up. What a lock holds is known by its type alone, so contracts
//! say what an answer has to do with what its caller had seen before.
//!
//! - `append.rt`: `append_to`, all that an append does while it holds the lock. It checks that the board has the
//!   analyst's desk, that the log that is found begins with what the analyst has seen, and that it has no other events
//!   of the analyst. Else the log is foreign. Then it asks the log whether it takes the event, and replaces the log
//!   with the longer one. A refusal leaves the log.
//! - `board.rt`: `Board`. `append` and `look` take the lock; `open` makes a board with its desks, `fork` a private
//!   board for one desk, and `close` gives back the log. A private board begins at the log of the desk's state, has
//!   that desk's number, and shares graph and strengths.
//! - `closing.rt`: what `close` checks: each desk can find the log, each event since the base is by a desk of the
//!   board, and no desk is missing.
//! - `desk.rt`: `Desk`, the replica of one analyst. The log of its state is a beginning of what it has seen. `catch_up`
//!   steps the state, event by event, to what was seen; each event costs one repair. `edit` catches up, decides by the
//!   dump whether the edit can be done, appends it, and comes to it. What it answers is what that one event did,
//!   whatever other analysts' events came before it. `learn` takes over a log that another desk has seen.
//! - `faults.rt`: why a call is refused, each with its reasons in the order in which they are answered.
//! - `laws.rt`: answers are steps of a schedule of the desks (`Schedule.antt` of `hd_terms`). Contracts of single calls
//!   say what each does; this law says what they come to together, whatever the order in which threads take the lock.
//!
//! Where memory runs out after an append, the event is in the log and the desk is behind it. The answer says so, with
//! the event's number (`Accepted`), and the desk catches up at its next call.
#![tactic(auto)]

mod append;
mod board;
mod closing;
mod desk;
mod faults;
mod laws;

pub use append::append_to;
pub use board::{Board, open};
pub use desk::Desk;
pub use faults::{
    AppendFault, Behind, CloseFault, EditFault, LearnFault, LookFault, RefreshFault, UndoFault,
};
pub use laws::answers_are_steps;
