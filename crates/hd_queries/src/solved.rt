//! A graph under a log, with the strengths that the log leaves.
use hd_graph::Graph;
use hd_log::Front;
use hd_supports::Supports;
use hd_totals::LastChanges;

/// A graph, a log, and the strengths of the graph's objects as the log leaves them.
#[derive(Clone, Copy)]
pub struct Solved<'a> {
    /// The dump.
    pub graph: &'a Graph,
    /// The log.
    pub front: &'a Front,
    /// What is kept of each object under the log.
    pub strengths: &'a Supports,
    /// When the strengths of each page of objects last changed.
    pub last_changes: &'a LastChanges,
}
