//! Tests of what only code can show of the lines of an analyst: streams that fail, hold what they are given or never end,
//! desks that are served over one board and over connections, prompts, and the texts of what ended a run.
#![tactic(auto)]

#[cfg(test)]
mod broken_tests;
#[cfg(test)]
mod clients;
#[cfg(test)]
mod desk_tests;
#[cfg(test)]
mod query_tests;
#[cfg(test)]
mod server_tests;
#[cfg(test)]
mod serving;
#[cfg(test)]
mod stream_tests;
#[cfg(test)]
mod streams;
#[cfg(test)]
mod terminal_tests;
#[cfg(test)]
mod writer_tests;
