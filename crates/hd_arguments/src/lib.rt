//! Reads the words after the program's name: what they ask for, or a text that says what is wrong with them.
//!
//! Callers see a `Task`, or a `WordsFault`; an asked help is a `WordsFault` too. `clap` reads the words, and none of
//! its types shows.
//!
//! - `options.rt`: the words that there are, as `clap` is told them.
//! - `reading.rt`: reads the words and makes the task or the fault. The numbers of workers and analysts are clamped
//!   here as well as checked by `clap`, since contracts promise their ranges.
//! - `task.rt`: what words can ask for.
//! - `limits.rt`: the program's version, how many workers there are by default, and the most analysts.
#![tactic(auto)]

mod limits;
mod options;
mod reading;
mod task;

pub use limits::{MOST_ANALYSTS, VERSION, WORKERS};
pub use reading::{WordsFault, read_arguments};
pub use task::{Browsing, Opening, Serving, Task};
