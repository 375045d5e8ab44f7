//! Tests of what only code can show of a heap: graphs, logs, strengths and the states of a log, by calls that no line of an
//! analyst reaches. Other crates of tests take their dumps from here.
//! What lines and `stat` can show stands as cases in `crates/hd_rows`.
#![tactic(auto)]

#[cfg(test)]
mod chain_tests;
pub mod dumps;
#[cfg(test)]
mod fallen_tests;
#[cfg(test)]
mod graph_tests;
#[cfg(test)]
mod large_tests;
#[cfg(test)]
mod lazy_tests;
#[cfg(test)]
mod log_tests;
pub mod looks;
#[cfg(test)]
mod member_tests;
#[cfg(test)]
mod moved_tests;
#[cfg(test)]
mod part_tests;
pub mod random;
#[cfg(test)]
mod repair_tests;
#[cfg(test)]
mod settled_tests;
#[cfg(test)]
mod state_tests;
