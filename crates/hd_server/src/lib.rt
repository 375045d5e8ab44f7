//! Several analysts over connections: each has a desk and a thread, and all append to one log.
//!
//! `serve_on` (`server.rt`) takes a board and its desks, and accepts one connection for each desk, in their order. Each is
//! served in a thread of its own. When all have ended, it closes the board with its desks and writes the log.
//!
//! `connection.rt` puts a buffer on each way of a connection and calls `serve` of `hd_protocol`. A fault there ends
//! that connection and no other. `fault.rt` has why serving as a whole ends early.
#![tactic(auto)]

mod connection;
mod fault;
mod server;

pub use fault::ServeOnFault;
pub use server::{close_and_print, serve_on};
