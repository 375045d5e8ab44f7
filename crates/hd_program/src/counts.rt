//! What the status line says once a dump is open.
use hd_graph::Graph;
use hd_terminal::StatusLine;
use hd_terms::Counts;
use std::io::Write;
use std::time::Clock;

/// The counts of a graph, if there is a terminal at which the status line says them. They take a pass over all references.
pub(crate) fn shown_counts(graph: &Graph, status: &StatusLine) -> Option<Counts> {
    if status.has_terminal() {
        Some(graph.counts())
    } else {
        None
    }
}

/// Ends the status line, with counts if they are to be said.
pub(crate) fn end_status<T: Clock, E: Write>(
    status: &mut StatusLine,
    rt: &T,
    faults: &mut E,
    counts: Option<Counts>,
) {
    if let Some(counts) = counts {
        status.end(rt, faults, counts.objects, counts.edges);
    }
}
