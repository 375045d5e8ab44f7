//! What lines ask for, and how they are answered.
//!
//! Contracts of the crates that serve lines use the types of `src/` and cite the definitions of `specs/`. The crate hides
//! nothing. It stands apart from `hd_terms`, so that a change of a reply doesn't touch the crates that open, search and
//! repair.
//!
//! - `Lines`: how bytes are cut into lines, and which command a line spells. `Asking`: what an edit or an undo asks of the
//!   log.
//! - `Names`: groups and the names of classes as they are printed. `Replies`: the reply to a line. `Stat`: what `stat`
//!   writes.
//! - `Memory`: what a session remembers. `Sessions`: what one analyst's lines are answered, one after another.
//! - `commands.rt`: a command, and why a line is none. `examples.rt`: what the definitions make of the worked examples of
//!   `docs/DEFINITIONS.md`, as the contracts of functions with empty bodies.
//!
//! Source: this project's protocol (`docs/PROTOCOL.md`).
#![tactic(auto)]

mod commands;
mod examples;

pub use commands::{Command, LineFault, Query};
pub use examples::{asking_examples, line_examples, reply_examples, session_examples};
