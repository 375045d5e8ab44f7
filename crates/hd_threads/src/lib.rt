//! Calls of a function at each place of a list, or with each number, in threads that one thread begins.
//!
//! `for_each_mut` (`places.rt`) cuts the list into stretches and begins a thread for each; the calling thread only
//! waits. `map_indices` (`results.rt`) begins a thread for each number but the last, which the calling thread takes.
//! Where the system refuses a thread, the calling thread does that part itself.
//!
//! The functions of `std::thread` with these names halve the work, and each thread begins another one before it does
//! a part itself. Some systems put a new thread on the processor of the thread that begins it. There it waits,
//! although other processors have nothing to do. So here the calling thread begins all others.
#![tactic(auto)]

mod places;
mod results;

pub use places::for_each_mut;
pub use results::map_indices;
