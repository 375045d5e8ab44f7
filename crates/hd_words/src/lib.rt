//! The words of lines: which command a line spells, and how replies are spelled.
//!
//! `read_command` (`command.rt`) gives the command of a line, or its first fault. `words.rt` splits the line,
//! `arguments.rt` reads single words, and `numbers.rt` reads digits. `decimal.rt` writes the numbers of all lines, and
//! of `stat`.
//!
//! How things are spelled stands in one file for each, mostly both ways: `slot_words.rt`, `kind_words.rt`,
//! `strength_words.rt`, `group_words.rt`, `root_words.rt` and `event_words.rt`. `row_words.rt` spells rows of slots,
//! references and roots. `name_words.rt` prints names of classes and fields, and escapes their bytes.
//!
//! `lines.rt` has the trait `LineFormat` and the one loop that writes rows as lines. `event_lines.rt` has the format of
//! events, `moved_lines.rt` that of what moved between strengths. Formats that need a graph are in `hd_analyst`.
//!
//! `hints.rt` says what would be right instead of a line that is no command.
//!
//! The crate knows the types of `hd_terms` and `hd_lines` alone, so it is proved beside the reading of dumps.
#![tactic(auto)]

mod arguments;
mod command;
mod decimal;
mod event_lines;
mod event_words;
mod group_words;
mod hints;
mod kind_words;
mod lines;
mod moved_lines;
mod name_words;
mod numbers;
mod root_words;
mod row_words;
mod slot_words;
mod strength_words;
mod words;

pub use command::read_command;
pub use decimal::put_decimal;
pub use event_lines::{EventLines, EventRow};
pub use group_words::{array_text, put_group};
pub use hints::hint_to;
pub use kind_words::kind_text;
pub use lines::{LineFormat, lines_text, lines_text_from, put_lines};
pub use moved_lines::MovedLines;
pub use name_words::put_name;
pub use root_words::root_text;
pub use row_words::{put_id, put_into_row, put_root_row, put_slot_row};
pub use slot_words::put_slot;
pub use strength_words::strength_text;
pub use words::{LONGEST_LINE, last_word};
