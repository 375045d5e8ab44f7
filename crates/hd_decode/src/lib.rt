//! Decodes the segments of a dump by several workers at once.
//!
//! Callers see one list of all sub-records in file order, or the fault of the first segment that has one. The number
//! of workers doesn't show in the answer.
//!
//! `shares_of` (`shares.rt`) gives each worker segments that stand one after another, about as many bytes as any
//! other worker. `decode` (`decoding.rt`) runs each worker in a thread of its own, where it reads its share by a
//! `SegmentReader` of `hd_subs`, and puts the lists together in the order of the shares. Each worker passes a `Gate`
//! (`gate.rt`) before it begins. Tests use the gate to hold workers up; `NoGate` holds nobody up.
#![tactic(auto)]

mod decoding;
mod gate;
mod shares;

pub use decoding::decode;
pub use gate::{Gate, NoGate};
pub use shares::shares_of;
