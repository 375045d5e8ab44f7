//! A check whether strengths, supports and stamps are settled for a graph under a log.
//!
//! `is_settled` (`checking.rt`) looks at each support, each root and each reference once: each support has to be what
//! it says, each standing root has to make its object strong, and no standing reference may give its target more than
//! that has. This is the certificate of a search or a repair, checked without searching. Tests and the program of
//! random edits call it; the product doesn't.
#![tactic(auto)]

mod checking;

pub use checking::is_settled;
