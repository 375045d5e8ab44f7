//! What a command does at an analyst's desk, and the reply to it.
//!
//! `answer` (`answering.rt`) runs what a line spells. A line that spells no command is refused, and `quit` is answered,
//! both without a look at the log. Before any other command the desk is refreshed; where that fails, the command isn't
//! run. A short reply is put into a `FixedBuffer` (`fixed_buffer.rt`), so it takes no memory; a long one is given back
//! as a text.
//!
//! - `analyst.rt`: `Analyst`, with the desk, up to 16 marks, and an open private part: a board of its own
//!   (`Board::fork`) and the desk to which the analyst goes back. Mark 0 is the state as the session began.
//! - `edit.rt`: edits and undos. `query.rt`: queries, which need only a state and the marks.
//! - `reply.rt`: short replies of at most 256 bytes, and the names of refusals and faults.
//! - `texts.rt`: answers of many lines, and `log_text`, the lines of a log alone, for the server to print. A `Showing` says
//!   whether lines show names, and how many are written at most.
//! - `found_lines.rt`: the answer to `find`. Each group's name is printed and searched for the text.
//! - `row_lines.rt`, `link_lines.rt`, `class_lines.rt`, `object_lines.rt`: the line formats that need the graph, for names and
//!   IDs. `naming.rt` puts the name of an object, `places.rt` the place of a slot.
#![tactic(auto)]

mod analyst;
mod answering;
mod class_lines;
mod edit;
mod fixed_buffer;
mod found_lines;
mod link_lines;
mod naming;
mod object_lines;
mod places;
mod query;
mod reply;
mod row_lines;
mod texts;

pub use analyst::{Analyst, first_marks};
pub use answering::answer;
pub use fixed_buffer::FixedBuffer;
pub use query::{Question, reply_text};
pub use reply::LONGEST_REPLY;
pub use texts::{Showing, log_text};
