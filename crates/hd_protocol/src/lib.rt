//! The protocol over streams: lines are read from any reader and replies are written to any writer.
//!
//! - `serving.rt`: `serve`, a session of a desk at a board. It takes bytes in chunks of 65,536, runs each line at its
//!   newline, and writes the reply. Of a line it keeps one byte more than a line may have, so it tells one that is too
//!   long and takes no more memory for it. It flushes the writer before it asks for more input. What a command does is
//!   for `hd_analyst`.
//! - `run.rt`: that over the bytes of a dump: it opens them, makes a board of one desk, serves it, and closes the
//!   board.
//! - `stat.rt`: the counts and totals of a dump, as `stat` prints them. Slots are counted while the strengths are
//!   computed.
//! - `sample.rt`: the built-in dump.
//!
//! What `serve` and `run_bytes` promise stands in one file, `specs/Serving.antt`; what their loops keep, in `specs/Steps.antt`.
//!
//! The crate knows no files, no words of a command line and no connections.
#![tactic(auto)]

mod run;
mod sample;
mod serving;
mod stat;

pub use hd_words::{LONGEST_LINE, read_command};
pub use run::{RunFault, open_alone, open_bytes, run_bytes, serve_alone};
pub use sample::SAMPLE;
pub use serving::{ServeFault, serve};
pub use stat::stat_bytes;
