//! The program over given streams: it does what the words after its name ask for, and returns the exit status.
//!
//! - `performing.rt`: `program`, which serves one analyst or several, prints counts or the version, or reports a fault.
//! - `file.rt`: reads a file into a `Buffer` of exactly its length, in pieces of up to 256 MiB, each by up to eight
//!   threads. The length is checked before memory is taken. What is no regular file isn't opened.
//! - `page.rt`: reads the page that browsers are given.
//! - `server.rt`: listens on a port of 127.0.0.1, tells it, and serves the analysts, by lines (`hd_server`) or in browsers
//!   (`hd_web`). The bytes of the file are given up first.
//! - `counts.rt`: what the status line says at the end, where a terminal shows it. The counts take a pass, so nobody
//!   else asks for them.
//!
//! The crate knows no process: clock, files, network and streams are given to it, so tests run it over words, lines and
//! files of their own.
#![tactic(auto)]

mod counts;
mod file;
mod page;
mod performing;
mod server;

pub use performing::{BAD_DUMP, DONE, FAILED, USAGE, program};
