//! Tests of what only code can show of a file: its records, its classes, and its segments on several workers; of memory that
//! several threads fill, and lists whose places several threads change; and of lists in pages, IDs, parts and shapes.
//!
//! Graphs and all that stands on them have tests of their own in `crates/hd_state_tests`, desks in `crates/hd_board_tests`, and
//! streams in `crates/hd_stream_tests`, so that none waits for another. What lines and `stat` can show stands as cases in
//! `crates/hd_rows`.
#![tactic(auto)]

#[cfg(test)]
mod buffer_tests;
#[cfg(test)]
mod class_tests;
#[cfg(test)]
mod id_tests;
#[cfg(test)]
mod page_tests;
#[cfg(test)]
mod part_tests;
#[cfg(test)]
mod reading_tests;
#[cfg(test)]
mod shape_tests;
#[cfg(test)]
mod thread_tests;
#[cfg(test)]
mod worker_tests;
