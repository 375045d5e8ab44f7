//! Tests of boards and desks: what several analysts are answered over one log, in one thread and in many.
#![tactic(auto)]

#[cfg(test)]
mod append_tests;
#[cfg(test)]
mod boards;
#[cfg(test)]
mod desk_tests;
#[cfg(test)]
mod fork_tests;
#[cfg(test)]
mod random_tests;
#[cfg(test)]
mod thread_tests;
