//! The program's version, and how many workers and analysts the words may name.

/// The version of the program, as `hdesk --version` prints it behind the name.
pub const VERSION: &str = "1.9.0";

/// The most analysts that are served at once.
pub const MOST_ANALYSTS: u8 = 16;

/// How many workers decode, where nothing else is said.
pub const WORKERS: u32 = 4;
