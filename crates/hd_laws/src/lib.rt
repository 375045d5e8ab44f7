//! Laws over the definitions: what they fix, and what they leave open.
//!
//! Each law is the contract of a function that does nothing (`laws.rt`):
//!
//! - `one_stat`: the bytes of a dump and the mode have one text of `stat`.
//! - `one_run`: the replies to an analyst who is alone are a function of the bytes, the mode and the input, except for the
//!   replies to `chain`. The analyst begins no private part and is answered neither `no OutOfMemory`, `no Behind`,
//!   `no Foreign` nor `no Accepted E`.
//! - `plain_session`: such a session exists, so `one_run` says something.
//!
//! Nothing calls these functions. They stand on `hd_terms` alone, so they don't depend on how the program works.
#![tactic(auto)]

mod laws;

pub use laws::{one_run, one_stat, plain_session};
